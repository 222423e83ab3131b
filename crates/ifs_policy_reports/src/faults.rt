//! The code and the line of a fault.

ghost use Rattle.std.specs.Prelude.{◌≡◌};
ghost use Rattle.ifs_lex.specs.FaultWords.{lex_fault_words};
ghost use Rattle.ifs_parse.specs.FaultWords.{parse_fault_words};
ghost use Rattle.ifs_policy.specs.FaultWords.{policy_fault_words, resolve_fault_words};
ghost use Rattle.ifs_gen.specs.FaultWords.{compile_fault_words, gen_fault_words};
ghost use Rattle.ifs_report.specs.Codes.{first_word};
ghost use Rattle.ifs_policy_reports.specs.Refusals.{
  line_of_fault,
  line_of_names,
  line_of_text,
  line_of_tokens,
  line_of_tree,
};

use ifs_gen::{CompileFault, GenFault};
use ifs_lex::LexFault;
use ifs_parse::ParseFault;
use ifs_policy::{PolicyFault, ResolveFault};

/// The code of a fault: the first word of the line that is printed for it.
pub(crate) fn code_of(fault: CompileFault) -> &'static str
    ensures { result.now ≡ first_word (compile_fault_words fault) }
{
    match fault {
        CompileFault::Text(fault) => code_of_text(fault),
        CompileFault::Code(fault) => code_of_code(fault),
        CompileFault::Memory => "P0",
    }
}

fn code_of_text(fault: PolicyFault) -> &'static str
    ensures { result.now ≡ first_word (policy_fault_words fault) }
{
    match fault {
        PolicyFault::Text(fault) => code_of_tokens(fault),
        PolicyFault::Tokens(fault) => code_of_tree(fault),
        PolicyFault::Names(fault) => code_of_names(fault),
        PolicyFault::Memory => "P0",
    }
}

fn code_of_tokens(fault: LexFault) -> &'static str
    ensures { result.now ≡ first_word (lex_fault_words fault) }
{
    match fault {
        LexFault::Stray { .. } => "P1",
        LexFault::Unclosed { .. } => "P2",
        LexFault::UnknownMacro { .. } => "P3",
        LexFault::BadMacro { .. } => "P4",
        LexFault::OverLimit { .. } => "P5",
        LexFault::Memory => "P0",
    }
}

fn code_of_tree(fault: ParseFault) -> &'static str
    ensures { result.now ≡ first_word (parse_fault_words fault) }
{
    match fault {
        ParseFault::Unexpected(_) => "P6",
        ParseFault::Period(_) => "P7",
        ParseFault::Nesting(_) => "P8",
        ParseFault::Memory => "P0",
    }
}

fn code_of_names(fault: ResolveFault) -> &'static str
    ensures { result.now ≡ first_word (resolve_fault_words fault) }
{
    match fault {
        ResolveFault::NoState { .. } => "P9",
        ResolveFault::StateTwice(_) => "P10",
        ResolveFault::UnknownState(_) => "P11",
        ResolveFault::SecondInit(_) => "P12",
        ResolveFault::SetStateInInit(_) => "P13",
        ResolveFault::TestInInit(_) => "P14",
        ResolveFault::TableFull(_) => "P15",
        ResolveFault::BadText(_) => "P16",
        ResolveFault::Memory => "P0",
    }
}

fn code_of_code(fault: GenFault) -> &'static str
    ensures { result.now ≡ first_word (gen_fault_words fault) }
{
    match fault {
        GenFault::RoutineTooLong(_) => "G1",
        GenFault::CodeTooLong => "G2",
        GenFault::StackTooHigh(_) => "G3",
        GenFault::TooManyCommands => "G4",
        GenFault::Memory => "P0",
    }
}

/// The line of a fault, if it has one.
pub(crate) fn line_of(fault: CompileFault) -> Option<u32>
    ensures { result ≡ line_of_fault fault }
{
    match fault {
        CompileFault::Text(fault) => line_of_text(fault),
        CompileFault::Code(_) | CompileFault::Memory => None,
    }
}

fn line_of_text(fault: PolicyFault) -> Option<u32>
    ensures { result ≡ line_of_text fault }
{
    match fault {
        PolicyFault::Text(fault) => line_of_tokens(fault),
        PolicyFault::Tokens(fault) => line_of_tree(fault),
        PolicyFault::Names(fault) => line_of_names(fault),
        PolicyFault::Memory => None,
    }
}

fn line_of_tokens(fault: LexFault) -> Option<u32>
    ensures { result ≡ line_of_tokens fault }
{
    match fault {
        LexFault::Stray { line }
        | LexFault::Unclosed { line }
        | LexFault::UnknownMacro { line }
        | LexFault::BadMacro { line }
        | LexFault::OverLimit { line } => Some(line),
        LexFault::Memory => None,
    }
}

fn line_of_tree(fault: ParseFault) -> Option<u32>
    ensures { result ≡ line_of_tree fault }
{
    match fault.place() {
        Some(place) => Some(place.span.line),
        None => None,
    }
}

fn line_of_names(fault: ResolveFault) -> Option<u32>
    ensures { result ≡ line_of_names fault }
{
    match fault {
        ResolveFault::NoState { line } => Some(line),
        ResolveFault::StateTwice(place)
        | ResolveFault::SecondInit(place)
        | ResolveFault::SetStateInInit(place)
        | ResolveFault::TestInInit(place)
        | ResolveFault::TableFull(place)
        | ResolveFault::BadText(place)
        | ResolveFault::UnknownState(place) => Some(place.span.line),
        ResolveFault::Memory => None,
    }
}
