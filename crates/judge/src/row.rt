// A line of the table with its number.
ghost use Rattle.std.specs.Prelude.{◌≡◌};
ghost use Rattle.schema.specs.inner.Line.{line_at};
ghost use Rattle.schema.specs.Tables.{sheets};

use schema::Line;

#[derive(Clone, Copy)]
pub struct Row {
    pub i: usize,
    pub line: Line,
    ghost listed: { line ≡ line_at sheets i },
}
