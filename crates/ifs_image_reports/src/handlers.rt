//! The handlers of an image, by which routines are named.

use crate::pieces::{Piece, put};
use ifs_base::{Op, RoutineId};
use ifs_image::{Handlers, ImageView};
use std::alloc::AllocError;

/// What a handler belongs to.
#[derive(Clone, Copy)]
enum Owner {
    /// The part outside all states.
    Always,
    /// A state, by its index.
    State(usize),
}

/// When a handler runs.
#[derive(Clone, Copy)]
enum Role {
    Init,
    Body,
}

/// A handler.
#[derive(Clone, Copy)]
struct Handler {
    owner: Owner,
    role: Role,
}

/// What a handler is to a routine.
#[derive(Clone, Copy)]
enum Relation {
    /// The routine is its own.
    Is,
    /// Its own routine calls the routine.
    Calls,
}

impl Role {
    fn word(self) -> &'static str {
        match self {
            Role::Init => "init",
            Role::Body => "body",
        }
    }
}

/// Adds the name of a routine: that of its handler, or that of a handler that calls it.
pub(crate) fn put_routine(
    out: &mut String,
    image: &ImageView<'_>,
    routine: RoutineId,
) -> Result<(), AllocError> {
    match first_handler(image, Relation::Is, routine) {
        Some(handler) => put_handler(out, image, handler, routine),
        None => put_called(out, image, routine),
    }
}

/// Adds the routine of a handler.
fn put_handler(
    out: &mut String,
    image: &ImageView<'_>,
    handler: Handler,
    routine: RoutineId,
) -> Result<(), AllocError> {
    put_owner(out, image, handler.owner)?;
    put(
        out,
        &[
            Piece::Words(", "),
            Piece::Words(handler.role.word()),
            Piece::Words(" routine "),
            Piece::Number(u64::from(routine.0)),
        ],
    )
}

/// Adds a routine that is no handler.
fn put_called(
    out: &mut String,
    image: &ImageView<'_>,
    routine: RoutineId,
) -> Result<(), AllocError> {
    put(
        out,
        &[
            Piece::Words("routine "),
            Piece::Number(u64::from(routine.0)),
        ],
    )?;
    match first_handler(image, Relation::Calls, routine) {
        Some(handler) => put_caller(out, image, handler),
        None => Ok(()),
    }
}

/// Adds which handler calls a routine.
fn put_caller(out: &mut String, image: &ImageView<'_>, handler: Handler) -> Result<(), AllocError> {
    put(
        out,
        &[
            Piece::Words(", which the "),
            Piece::Words(handler.role.word()),
            Piece::Words(" of "),
        ],
    )?;
    put_owner(out, image, handler.owner)?;
    out.push_str(" calls")
}

fn put_owner(out: &mut String, image: &ImageView<'_>, owner: Owner) -> Result<(), AllocError> {
    match owner {
        Owner::Always => out.push_str("always part"),
        Owner::State(state) => put_state(out, image, state),
    }
}

/// Adds a state: its index, and its name if there is such a state.
pub(crate) fn put_state(
    out: &mut String,
    image: &ImageView<'_>,
    state: usize,
) -> Result<(), AllocError> {
    let (blank, name) = if state < image.states() {
        (" ", Piece::Name(image.state_name(state)))
    } else {
        ("", Piece::Words(""))
    };
    put(
        out,
        &[
            Piece::Words("state "),
            Piece::Number(state as u64),
            Piece::Words(blank),
            name,
        ],
    )
}

/// The first handler that has a relation to a routine. The always part comes before the states.
fn first_handler(image: &ImageView<'_>, relation: Relation, routine: RoutineId) -> Option<Handler> {
    if let Some(role) = role_in(image, image.always(), relation, routine) {
        return Some(Handler {
            owner: Owner::Always,
            role,
        });
    }
    for state in 0..image.states() {
        if let Some(role) = role_in(image, image.state_handlers(state), relation, routine) {
            return Some(Handler {
                owner: Owner::State(state),
                role,
            });
        }
    }
    None
}

/// The first of two handlers that has a relation to a routine.
fn role_in(
    image: &ImageView<'_>,
    handlers: Handlers,
    relation: Relation,
    routine: RoutineId,
) -> Option<Role> {
    if relates(image, handlers.init, relation, routine) {
        Some(Role::Init)
    } else if relates(image, handlers.body, relation, routine) {
        Some(Role::Body)
    } else {
        None
    }
}

fn relates(
    image: &ImageView<'_>,
    handler: RoutineId,
    relation: Relation,
    routine: RoutineId,
) -> bool {
    match relation {
        Relation::Is => handler == routine,
        Relation::Calls => calls(image, usize::from(handler.0), routine),
    }
}

/// Whether a routine has a call of another one.
fn calls(image: &ImageView<'_>, caller: usize, callee: RoutineId) -> bool {
    if caller >= image.routines() {
        return false;
    }
    let code = image.code(caller);
    for place in 0..code.len() {
        if code.op(place) == Op::Call(callee) {
            return true;
        }
    }
    false
}
