// What is told of a file, or of a set of files: that no rule is broken, or the first that is.
ghost use Rattle.std.specs.Prelude.{◌≡◌, ◌<◌};
ghost use Rattle.fault.specs.Outcome.{syntax_parts, fault_parts, outcome_of};
ghost use Rattle.fault.specs.inner.Narrow.{Narrow};

use crate::Fault;
use word::Parts;

// No rule is broken, or the first that is, as a word's parts.
pub type Outcome = Result<(), Parts>;

// The parts of a word for what stage A finds in a file.
pub fn syntax_parts(file: u8, kind: u8, offset: u32) -> Parts
    ensures { result ≡ syntax_parts file kind offset }
{
    Parts {
        file,
        kind,
        field: 0,
        record: 0,
        sub: 0,
        offset,
    }
}

// The parts of a word for a fault of a file.
fn fault_parts(file: u8, f: Fault) -> Parts
    requires { (f.«record» < 65_536) × (f.sub < 65_536) }
    ensures { result ≡ fault_parts file f }
{
    Parts {
        file,
        kind: f.kind,
        field: f.field,
        record: f.record as u16,
        sub: f.sub as u16,
        offset: 0,
    }
}

// What is told of a file by the first of its faults.
pub fn outcome_of(file: u8, least: Option<Fault>) -> Outcome
    requires { Narrow least }
    ensures { result ≡ outcome_of file least }
{
    match least {
        None => Ok(()),
        Some(f) => Err(fault_parts(file, f)),
    }
}
