ghost use Rattle.std.specs.Prelude.{◌≡◌, ℕ, List, Some};
ghost use Rattle.dv_model.specs.declared.types.Command.{Command};
ghost use Rattle.dv_model.specs.declared.types.Key.{Key};
ghost use Rattle.dv_formats.specs.Parsing.{command_of};
ghost use Rattle.dv_formats.specs.Printing.{command_text};
ghost use Rattle.dv_formats.specs.Scripts.{IsCommand, IsKey, key_levels};
ghost use Rattle.dv_commands.specs.Keys.{key_of};

/// Nothing of the grammar is refused, and a text is of one command: the command of each text of the
/// grammar is what is read of it.
pub fn command_is_read()
    ensures { (command : Command) (b : List ℕ) → IsCommand command b
        → command_of b ≡ Some command }
{}

/// What is printed of a command that has a text on one line is read as the same command.
pub fn printed_command_is_read()
    ensures { (command : Command) (b : List ℕ) → IsCommand command b
        → command_of (command_text command) ≡ Some command }
{}

/// No key of the grammar is refused, and a text is of one key: the key of each text of the grammar
/// is what is read of it.
pub fn key_is_read()
    ensures { (key : Key) (b : List ℕ) → IsKey key key_levels b → key_of b ≡ Some key }
{}
