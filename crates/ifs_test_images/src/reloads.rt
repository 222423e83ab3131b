//! Reloads: an image with a session, and the image that follows it with another session.

use crate::{Row, images};

/// A session on an image, and then a session on the image that a reload reads.
#[derive(Clone, Copy, Debug)]
pub struct Reload {
    /// The image before the reload.
    pub before: Row,
    /// The image after it.
    pub after: Row,
}

/// The policy that compiles to [`images::FIRST_POLICY`].
pub const FIRST_POLICY: &str = "state a { if carp0.link.up run \"echo m\" }";

/// A macro with a test, used by another macro.
const MACROS: &str =
    "net = '( \"ping -q -c 1 host\" every 10 )'\nbad = '! $net'\nstate a { if $bad run \"echo d\" }";

/// A policy whose init looks at a link.
const LOOKS_AT_OPENING: &str = "state x { init if carp0.link.up run \"echo n\" }";

/// Its image.
const LOOKING_AT_OPENING: &str = "
    49465356 01 0001 0001 00000007 0001
    0001 0000 0001 0001 0004 0000
    0000 0001 0000000000000000
    0005 6361727030
    0006 6563686f206e
    0001 78 0002 0003 0000000000000000
    00 0001 00000000
    00 0001 00000000
    00 0005 03020000 0e000004 09000000 0b000000 00000000
    00 0001 00000000
";

/// A session that leaves a known link, and a command in the queue.
pub fn with_a_command() -> Row {
    Row {
        name: "reload with a command",
        requests: "link carp0 up\n\
                   status\n",
        replies: "done \"a\" cost 6 queue 0\n\
                  status \"a\" owed no queue 1 running 0 now 0\n",
        policy: Some(FIRST_POLICY),
        image: images::FIRST_POLICY,
    }
}

/// A session that leaves a known link, and then an image whose `init` asks for it.
pub fn first_policy_reloaded() -> Reload {
    Reload {
        before: Row {
            name: "before the reload",
            requests: "link carp0 up\n\
                       take\n",
            replies: "done \"a\" cost 6 queue 0\n\
                      taken 0 \"echo m\"\n",
            policy: Some(FIRST_POLICY),
            image: images::FIRST_POLICY,
        },
        after: Row {
            name: "first policy reloaded",
            policy: Some(LOOKS_AT_OPENING),
            image: LOOKING_AT_OPENING,
            requests: "status\n\
                       trace\n\
                       link carp0 up\n\
                       take\n\
                       take\n",
            replies: "status \"x\" owed yes queue 1 running 0 now 0\n\
                      trace 0\n\
                      same\n\
                      taken 0 \"echo n\"\n\
                      empty\n",
        },
    }
}

/// A test that runs while a reload reads the same image.
pub fn macros_reloaded() -> Reload {
    Reload {
        before: Row {
            name: "before the reload of macros",
            requests: "tick 0\n",
            replies: "tick \"a\" cost 4 queue - starts 0:1\n",
            policy: Some(MACROS),
            image: images::MACROS,
        },
        after: Row {
            name: "macros reloaded",
            requests: "status\n\
                       result 0 1 fail\n\
                       tick 0\n\
                       result 0 1 fail\n\
                       result 0 2 fail\n",
            replies: "status \"a\" owed yes queue 0 running 0 now 0\n\
                      stale\n\
                      tick \"a\" cost 4 queue - starts 0:2\n\
                      stale\n\
                      done \"a\" cost 9 queue 0\n",
            policy: Some(MACROS),
            image: images::MACROS,
        },
    }
}

/// All reloads.
pub fn reloads() -> [Reload; 2] {
    [first_policy_reloaded(), macros_reloaded()]
}

/// A policy, requests on its image, and another policy whose image a reload reads.
#[derive(Clone, Copy, Debug)]
pub struct Others {
    /// The policy before the reload.
    pub before: &'static str,
    /// Requests that queue no command.
    pub requests: &'static str,
    /// The policy after it.
    pub after: &'static str,
    /// Requests after the reload.
    pub requests_after: &'static str,
    /// Their replies.
    pub replies_after: &'static str,
}

/// The second policy asks at its opening for links that the first one has under other numbers, does not have, or does not know.
pub fn other_interfaces() -> Others {
    Others {
        before: "state a {
            if em0.link.up && carp1.link.down && carp0.link.unknown && em1.link.up && em0.link.down
                run \"x\"
        }",
        requests: "link em0 up\n\
                   link carp1 down\n\
                   link em1 up\n\
                   link em1 unknown\n",
        after: "state x {
            init {
                if carp1.link.down run \"0\"
                if carp0.link.unknown run \"1\"
                if em0.link.down run \"2\"
                if em9.link.unknown run \"3\"
                if em0.link.up run \"4\"
                if em1.link.unknown run \"5\"
            }
        }",
        requests_after: "status\ntake\ntake\ntake\ntake\ntake\ntake\n",
        replies_after: "status \"x\" owed yes queue 5 running 0 now 0\n\
                        taken 0 \"0\"\n\
                        taken 1 \"1\"\n\
                        taken 3 \"3\"\n\
                        taken 4 \"4\"\n\
                        taken 5 \"5\"\n\
                        empty\n",
    }
}
