//! What holds of each script that is served.

ghost use Rattle.dv_serving.specs.Laws.{CommandsAreServable, GeneratedAreCounted, GeneratedAreServable};

/// Each command of a script by the grammar may be served: its flags are a byte and its keywords
/// names, no more than a line has bytes, and its key is not nested deep.
pub fn commands_are_servable()
    ensures { CommandsAreServable }
{}

/// Each command of a generated script may be served, whatever the seed, the count and the number of
/// sessions; and it has as many as sessions and commands together.
pub fn generated_are_servable()
    ensures commands { GeneratedAreServable }
    ensures count { GeneratedAreCounted }
{}
