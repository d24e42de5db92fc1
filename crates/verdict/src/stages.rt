// The stages of a set: A and B file by file, then C.
ghost use Rattle.std.specs.Prelude.{◌≡◌, length};
ghost use Rattle.json_text.specs.Text.{syntax_of};
ghost use Rattle.schema.specs.Tables.{table_at};
ghost use Rattle.fault.specs.Outcome.{or_next, unbroken};
ghost use Rattle.cross.specs.Stage.{picked, contents};
ghost use Rattle.cross.specs.inner.Stage.{first_c};
ghost use Rattle.verdict.specs.declared.stages.Stage.TheVariants as stages;
ghost use Rattle.verdict.specs.Verdict.{verdict_of};
ghost use Rattle.verdict.specs.inner.Stages.{outcome_in, first_in};

use clean::{check_fields, check_text};
use cross::set::{FILES, file_in};
use fault::outcome::Outcome;
use feedset::stage::judge_set;
use schema::sheets::sheet_of;
use word::Word;

// The stages that judge each file alone.
#[derive(Clone, Copy)]
pub enum Stage {
    A,
    B,
}

// Such a stage of a file, by the table of a number; where nothing is there, it passes. Stage B is for files that stage A passes.
fn judge_alone(table: u8, stage: Stage, file: u8, s: &[u8]) -> Outcome
    requires { stage ≡ stages.B → (length s.now ≡ 0 → ⊥) → syntax_of s.now ≡ Ok tt }
    ensures { result ≡ outcome_in (table_at table) stage file s.now }
{
    if s.len() == 0 {
        return Ok(());
    }
    match stage {
        Stage::A => check_text(file, s),
        Stage::B => check_fields(sheet_of(table, file), file, s),
    }
}

// The first file that breaks a rule of such a stage. Stage B is for sets that stage A passes.
fn first_in<'a>(table: u8, stage: Stage, files: [&'a [u8]; FILES]) -> Outcome
    requires { stage ≡ stages.B → first_in (table_at table) stages.A (contents files) ≡ unbroken }
    ensures { result ≡ first_in (table_at table) stage (contents files.entry) }
{
    for file in 1..=Word::FILES {
        judge_alone(table, stage, file, file_in(files, file))?;
    }
    Ok(())
}

// Stages B and C of a set that is through stage A.
fn judge_read<'a>(table: u8, files: [&'a [u8]; FILES]) -> Outcome
    requires { first_in (table_at table) stages.A (contents files) ≡ unbroken }
    ensures { result ≡ or_next (first_in (table_at table) stages.B (contents files.entry))
        (first_c (table_at table) (picked (table_at table) (contents files.entry))) }
{
    first_in(table, Stage::B, files)?;
    judge_set(table, files)
}

// The first broken rule of a set, stage by stage, by the table of a number.
pub fn judge<'a>(table: u8, files: [&'a [u8]; FILES]) -> Outcome
    ensures { result ≡ verdict_of (table_at table) (contents files.entry) }
{
    first_in(table, Stage::A, files)?;
    judge_read(table, files)
}
