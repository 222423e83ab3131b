//! Calls on a policy's text, its tokens, its tree and the policy itself.

use crate::allocations::{Code, Turn, code_of, no_memory};
use crate::calls::tried;
use crate::failure::Failure;
use crate::readings::readings;
use ifs_core::Step;
use ifs_gen::laws::replies_of_text;
use ifs_gen::{CompiledText, compile, compile_with_notes, compiled_core, generate};
use ifs_image::{Image, write};
use ifs_lex::tokens;
use ifs_parse::{Tree, parse};
use ifs_policy::{Policy, PolicyText, policy_of, resolve};
use std::alloc::Global;
use std::fmt::Debug;
use std::io::Write;

/// A policy with macros, notes and repeated conditions. Each table has more entries than a first allocation holds.
const TEXT: &str = "
# both addresses
up = '$outside.link.up && $inside.link.up'
outer = '\"ping -q -c 1 192.0.2.1\" every 5'
inner = '\"ping -q -c 1 192.0.2.2\" every 10'
works = '( $outer || $inner && ! \"test -e /var/run/stop\" every 15 )'
init-state waits
init { run \"echo begins\" run \"echo 'a \\\" and a \\\\ '\" }
if em0.link.down || em1.link.down || em2.link.down run \"echo lost\"
if \"pfctl -s info\" every 30 && \"pfctl -s state\" every 60 { run \"echo filters\" }
state waits {
  init run \"echo waits\"
  if $works { if $up set-state master if ! ( $up ) { run \"echo half\" set-state backup } }
  if em3.link.unknown || em4.link.up && em5.link.up run \"echo unknown\"
}
state master {
  init { run \"demote 0\" run \"services start\" }
  if ! $works { set-state broken run \"echo master, and nothing works\" }
  if $outside.link.down || $inside.link.down || em2.link.down set-state backup
}
state backup {
  init { run \"demote 10\" run \"services stop\" }
  if $outside.link.up && $inside.link.up && em2.link.up { if $works set-state master }
  if em0.link.down || em1.link.down || em2.link.down run \"echo lost twice\"
}
state broken {
  init run \"demote 100\"
  if $works && ( $up ) set-state waits
  if $outside.link.up && $inside.link.up && em2.link.up run \"echo links are there\"
}
state unused { if \"true\" every 604800 || \"false\" every 1 set-state waits }
state \"last one\" { }
";

/// Its definitions.
const DEFINITIONS: &[(&str, &str)] = &[("outside", "carp0"), ("inside", "carp1")];

/// The policy's text. A proof does not have to know the text, so the function hides it.
pub fn text() -> &'static str {
    TEXT
}

/// The definitions beside it.
pub fn definitions() -> &'static [(&'static str, &'static str)] {
    DEFINITIONS
}

/// Steps on its core.
const STEPS: [Step; 5] = [
    Step::Tick(7),
    Step::Take,
    Step::Take,
    Step::Tick(8),
    Step::Take,
];

/// Tries each call on the policy of the text.
pub fn try_calls(rt: &HostRuntime, given: &PolicyText) -> Result<(), Failure> {
    tried_p0(rt, given, "ifs_lex::tokens", made_tokens)?;
    tried_p0(rt, given, "ifs_parse::parse", made_tree)?;
    tried_p0(rt, given, "ifs_policy::resolve", made_policy)?;
    tried_p0(rt, given, "ifs_policy::policy_of", policy_of_text)?;
    tried_p0(rt, given, "ifs_gen::generate", made_image)?;
    tried_p0(rt, given, "ifs_gen::compile", made_bytes)?;
    tried_p0(rt, given, "ifs_gen::compile_with_notes", with_tree)?;
    tried_p0(rt, given, "ifs_gen::compiled_core", made_core)?;
    tried_p0(rt, given, "ifs_gen::laws::replies_of_text", replies)
}

/// Tries a call whose out-of-memory fault is P0.
fn tried_p0<F: Fn(&PolicyText, Turn) -> Result<Vec<u8>, Code>>(
    rt: &HostRuntime,
    given: &PolicyText,
    name: &str,
    make: F,
) -> Result<(), Failure>
    requires { F.IsAlwaysCallable make }
{
    tried(rt, given, name, &["P0"], make)
}

/// The policy of the text, beside its tree.
pub fn policy_given(alloc: Global) -> Result<PolicyText, Code> {
    policy_of(alloc, text(), definitions()).map_err(code_of)
}

fn made_tokens(_given: &PolicyText, turn: Turn) -> Result<Vec<u8>, Code> {
    let tokens = turn.ended(tokens(turn.begun(), text(), definitions()));
    text_of(turn.alloc(), &tokens.map_err(code_of)?)
}

/// The image of its policy and its notes represent a tree.
fn made_tree(_given: &PolicyText, turn: Turn) -> Result<Vec<u8>, Code> {
    let tokens = tokens(turn.alloc(), text(), definitions()).map_err(code_of)?;
    let tree = turn.ended(parse(turn.begun(), tokens.as_slice()));
    bytes_of_tree(turn.alloc(), &tree.map_err(code_of)?)
}

fn bytes_of_tree(alloc: Global, tree: &Tree) -> Result<Vec<u8>, Code> {
    let policy = resolve(alloc, tree).map_err(code_of)?;
    bytes_and_notes(alloc, &policy, tree)
}

/// The bytes of a policy's image, and then the notes of its tree.
fn bytes_and_notes(alloc: Global, policy: &Policy, tree: &Tree) -> Result<Vec<u8>, Code> {
    with_notes(bytes_of_policy(alloc, policy)?, tree)
}

fn made_policy(given: &PolicyText, turn: Turn) -> Result<Vec<u8>, Code> {
    let policy = turn.ended(resolve(turn.begun(), &given.tree));
    bytes_of_policy(turn.alloc(), &policy.map_err(code_of)?)
}

fn policy_of_text(_given: &PolicyText, turn: Turn) -> Result<Vec<u8>, Code> {
    let made = turn.ended(policy_of(turn.begun(), text(), definitions()));
    let found = made.map_err(code_of)?;
    bytes_and_notes(turn.alloc(), &found.policy, &found.tree)
}

fn made_image(given: &PolicyText, turn: Turn) -> Result<Vec<u8>, Code> {
    let image = turn.ended(generate(turn.begun(), &given.policy));
    written(turn.alloc(), &image.map_err(code_of)?)
}

fn made_bytes(_given: &PolicyText, turn: Turn) -> Result<Vec<u8>, Code> {
    turn.ended(compile(turn.begun(), text(), definitions()))
        .map_err(code_of)
}

fn with_tree(_given: &PolicyText, turn: Turn) -> Result<Vec<u8>, Code> {
    let made = turn.ended(compile_with_notes(turn.begun(), text(), definitions()));
    let CompiledText { tree, bytes } = made.map_err(code_of)?;
    with_notes(bytes, &tree)
}

fn made_core(_given: &PolicyText, turn: Turn) -> Result<Vec<u8>, Code> {
    let mut image = Vec::new(turn.alloc());
    let core = turn.ended(compiled_core(turn.begun(), text(), definitions(), &mut image));
    readings(turn.alloc(), &core.map_err(code_of)?)
}

fn replies(_given: &PolicyText, turn: Turn) -> Result<Vec<u8>, Code> {
    let replies = turn.ended(replies_of_text(turn.begun(), text(), definitions(), &STEPS));
    text_of(turn.alloc(), &replies.map_err(code_of)?)
}

/// The bytes of a value's `Debug` text.
pub fn text_of<T: Debug>(alloc: Global, value: &T) -> Result<Vec<u8>, Code> {
    let text = format!(in alloc; "{value:?}").map_err(no_memory)?;
    Ok(text.into_bytes())
}

/// The bytes of an image.
pub fn written(alloc: Global, image: &Image) -> Result<Vec<u8>, Code> {
    write(alloc, image).map_err(no_memory)
}

/// The bytes of a policy's image.
fn bytes_of_policy(alloc: Global, policy: &Policy) -> Result<Vec<u8>, Code> {
    written(alloc, &generate(alloc, policy).map_err(code_of)?)
}

/// Bytes, and then the notes of a tree.
fn with_notes(mut bytes: Vec<u8>, tree: &Tree) -> Result<Vec<u8>, Code> {
    for line in tree.notes() {
        write!(bytes, "{line}\n").map_err(|_error| code_of("AllocError"))?;
    }
    Ok(bytes)
}
