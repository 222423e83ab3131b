//! Sessions on accepted images, each from a fresh core.

use crate::{Row, images};

/// One state that queues a command at each change of its link.
pub fn first_run() -> Row {
    Row {
        name: "first_run",
        policy: None,
        image: images::FIRST_RUN,
        requests: "link carp0 up\n\
                   link carp0 up\n\
                   take\n\
                   take\n\
                   stop\n",
        replies: "done \"a\" cost 6 queue 0\n\
                  same\n\
                  taken 0 \"echo m\"\n\
                  empty\n\
                  bye\n",
    }
}
