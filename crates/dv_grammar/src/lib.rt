//! What is read of a script is of its grammar: laws of the definitions (RFC 3501, section 9).
#![tactic(auto)]

ghost use Rattle.std.specs.Prelude.{◌≡◌, ◌++◌, ℕ, List, Some, Ok, Err, codes};
ghost use Rattle.dv_model.specs.declared.types.Command.{Command};
ghost use Rattle.dv_model.specs.declared.types.Key.{Key};
ghost use Rattle.dv_formats.specs.Parsing.{ScriptFault, append_of, command_of, parsed};
ghost use Rattle.dv_formats.specs.Scripts.{IsAppendStart, IsBadLine, IsCommand, IsKey, IsScript, IsShortLiteral, IsTooLong, NamedLine, key_levels};
ghost use Rattle.dv_commands.specs.Keys.{key_of};

/// A command that is read of a line is one of the grammar, with this text; so none other is taken.
pub fn read_command_is_of_the_grammar()
    ensures command { (b : List ℕ) (command : Command) → command_of b ≡ Some command
        → IsCommand command b }
    // What is read behind the word of an APPEND is its first line, in the grammar.
    ensures append { (b : List ℕ) (start : (ℕ × List (List ℕ)) × ℕ) → append_of b ≡ Some start
        → IsAppendStart start.0.0 start.0.1 start.1 (codes "APPEND " ++ b) }
{}

/// A search key that is read of a whole text is one of the grammar, with this text; so no other
/// text is taken.
pub fn read_key_is_of_the_grammar()
    ensures { (b : List ℕ) (key : Key) → key_of b ≡ Some key → IsKey key key_levels b }
{}

/// A script that is read is one of the grammar, with these lines: in its bytes, its lines and its
/// sessions within the limits; so no other script is taken.
pub fn read_script_is_of_the_grammar()
    ensures lines { (script : List ℕ) (lines : List NamedLine) → parsed script ≡ Ok lines
        → IsScript lines script }
    // A line that is said to be bad is the first that isn't good, and has this number.
    ensures bad { (script : List ℕ) (number : ℕ)
        → parsed script ≡ Err (ScriptFault.BadLine number)
        → IsBadLine script number }
    // A literal that is said to be short is the first fault, and has this line's number.
    ensures short { (script : List ℕ) (number : ℕ)
        → parsed script ≡ Err (ScriptFault.ShortLiteral number)
        → IsShortLiteral script number }
    ensures long { (script : List ℕ) → parsed script ≡ Err ScriptFault.TooLong
        → IsTooLong script }
{}

/// Each script of the grammar is read as its lines, and each fault that a script has by the grammar
/// is told with its line's number. So a script is of one list of lines, or has one fault.
pub fn script_of_the_grammar_is_read()
    ensures lines { (script : List ℕ) (lines : List NamedLine) → IsScript lines script
        → parsed script ≡ Ok lines }
    ensures bad { (script : List ℕ) (number : ℕ) → IsBadLine script number
        → parsed script ≡ Err (ScriptFault.BadLine number) }
    ensures short { (script : List ℕ) (number : ℕ) → IsShortLiteral script number
        → parsed script ≡ Err (ScriptFault.ShortLiteral number) }
    ensures long { (script : List ℕ) → IsTooLong script
        → parsed script ≡ Err ScriptFault.TooLong }
{}
