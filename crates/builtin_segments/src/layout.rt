//! Which segment of a run is which.

ghost use Rattle.std.specs.Prelude.{◌≡◌, ◌≤◌};
ghost use Rattle.builtin_segments.specs.Layout.{builtin_count};

use program_file::Builtins;

/// The execution segment: in it the start stack lies, and ap and fp begin.
pub const EXECUTION: u32 = 1;

/// The offset in the execution segment at which ap and fp begin, after the two cells that a call leaves.
pub const FRAME_OFFSET: u32 = 2;

/// The segment of the first builtin.
pub const FIRST_BUILTIN: u32 = 2;

/// Where the segments of a run lie. Segment 0 is the program's and segment 1 the execution segment; then come the
/// builtins' segments, and then the extra ones.
#[derive(Clone, Copy, Debug, PartialEq, Eq)]
pub struct Layout {
    /// The segment of the output, where the program has one.
    pub output: Option<u32>,
    /// The segment of the range checks, where the program has them.
    pub range: Option<u32>,
    /// The first extra segment.
    pub first_extra: u32,
}

/// How much of each builtin's segment a run has used.
#[derive(Clone, Copy, Debug, PartialEq, Eq)]
pub struct Stops {
    /// The used cells of the output, where the program has one.
    pub output: Option<u32>,
    /// The used range cells, where the program has them.
    pub range: Option<u32>,
}

#[tactic(auto, unfolding(crate::specs::Layout::layout_of, crate::specs::Layout::builtin_count))]
impl Layout {
    ghost use Rattle.std.specs.Prelude.{◌≡◌};
    ghost use Rattle.builtin_segments.specs.Layout.{layout_of};

    /// Where the segments of a program with these builtins lie: output first, then the range checks.
    pub fn of(builtins: Builtins) -> Layout
        ensures { result ≡ layout_of builtins }
    {
        let after_output = if builtins.output {
            FIRST_BUILTIN + 1
        } else {
            FIRST_BUILTIN
        };
        Layout {
            output: builtins.output.then_some(FIRST_BUILTIN),
            range: builtins.range.then_some(after_output),
            first_extra: FIRST_BUILTIN + builtin_count(builtins),
        }
    }
}

/// How many builtins are named, at most 2.
#[tactic(auto, unfolding(crate::specs::Layout::builtin_count))]
pub fn builtin_count(builtins: Builtins) -> u32
    ensures count { result ≡ builtin_count builtins }
    ensures few { result ≤ 2 }
{
    u32::from(builtins.output) + u32::from(builtins.range)
}
