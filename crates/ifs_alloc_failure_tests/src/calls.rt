//! Refuses the allocations of calls in turn.

use crate::allocations::{Code, Turn};
use crate::failure::{Came, Failure};
use std::alloc::Global;

/// A call has to have fewer allocations than this.
const MOST: u32 = 65_536;

/// How the turns of a call went.
#[derive(Clone, Copy)]
struct Turns {
    /// How many allocations were refused.
    growths: u32,
    /// How many bytes represent its answer.
    bytes: usize,
}

/// Refuses the allocations of a call on these inputs in turn, and prints a line with its name. `codes` are the texts of the call's
/// out-of-memory faults. `make` makes the call in a turn. It returns bytes that distinguish the call's answer from others, or the
/// code of its fault.
pub fn tried<G, F: Fn(&G, Turn) -> Result<Vec<u8>, Code>>(
    rt: &HostRuntime,
    given: &G,
    name: &str,
    codes: &[&str],
    make: F,
) -> Result<(), Failure>
    requires { F.IsAlwaysCallable make }
{
    print!(rt; "{name}: ")?;
    let Turns { growths, bytes } = refuse_in_turn(rt.alloc(), given, codes, &make)?;
    println!(rt; "{growths} growths refused, then {bytes} bytes")?;
    Ok(())
}

/// Refuses allocation 1, 2, 3 and so on of a call, until a turn refuses none.
fn refuse_in_turn<G, F: Fn(&G, Turn) -> Result<Vec<u8>, Code>>(
    alloc: Global,
    given: &G,
    codes: &[&str],
    make: &F,
) -> Result<Turns, Failure>
    requires { F.IsAlwaysCallable make.now }
{
    let usual = make(given, Turn::ample(alloc))?;
    for growth in 1..MOST {
        let turn = Turn::refusing(alloc, growth);
        if !is_refused(given, codes, make, turn, usual.as_slice())? {
            return Ok(Turns {
                growths: growth - 1,
                bytes: usual.len(),
            });
        }
    }
    Err(failure(MOST, Came::Unending))
}

/// Makes a call in the turn of an allocation. If the allocation was refused, makes the call again with ample memory. Returns
/// whether it was refused.
fn is_refused<G, F: Fn(&G, Turn) -> Result<Vec<u8>, Code>>(
    given: &G,
    codes: &[&str],
    make: &F,
    turn: Turn,
    usual: &[u8],
) -> Result<bool, Failure>
    requires { F.IsAlwaysCallable make.now }
{
    let answer = make(given, turn);
    let met = turn.is_met();
    match answer {
        Ok(_) if met => Err(failure(turn.growth(), Came::Answer)),
        Ok(bytes) => {
            same(turn.growth(), bytes.as_slice(), usual)?;
            Ok(false)
        }
        Err(code) => {
            check_fault(codes, turn.growth(), met, code)?;
            let again = make(given, Turn::ample(turn.alloc()))?;
            same(turn.growth(), again.as_slice(), usual)?;
            Ok(true)
        }
    }
}

/// Checks that a fault is an out-of-memory fault of the call, and that an allocation was refused.
fn check_fault(codes: &[&str], growth: u32, met: bool, code: Code) -> Result<(), Failure> {
    if !is_own(codes, code.as_str()) {
        Err(Failure::Fault { growth, code })
    } else if met {
        Ok(())
    } else {
        Err(failure(growth, Came::Want))
    }
}

/// Whether a code is one of these.
fn is_own(codes: &[&str], code: &str) -> bool {
    codes.iter().any(|own| *own == code)
}

/// Checks that an answer is the usual one.
fn same(growth: u32, bytes: &[u8], usual: &[u8]) -> Result<(), Failure> {
    if bytes == usual {
        Ok(())
    } else {
        Err(failure(growth, Came::Another))
    }
}

fn failure(growth: u32, came: Came) -> Failure {
    Failure::Turn { growth, came }
}
