ghost use Rattle.std.specs.Prelude.{◌≡◌, ◌++◌, ℕ, List};
ghost use Rattle.dv_model.specs.Journals.{Held};
ghost use Rattle.dv_dbox.specs.BoxTexts.{box_content, BoxContent, BoxText, written};
ghost use Rattle.dv_dbox.specs.Mails.{guid_in, mail_in};
ghost use Rattle.dv_dbox.specs.Reading.{written_content, IsWritable};

/// What is written is of the format, is read back, whatever follows it, and is taken as the
/// message with its GUID.
pub fn written_is_read()
    ensures spelled { (stamp received : ℕ) (guid message rest : List ℕ)
        → IsWritable stamp guid received message
        → BoxText (written_content stamp guid received message)
        (written stamp guid received message ++ rest) }
    ensures read { (stamp received : ℕ) (guid message rest : List ℕ)
        → IsWritable stamp guid received message
        → box_content (written stamp guid received message ++ rest)
        ≡ Ok (written_content stamp guid received message) }
    ensures held { (stamp received : ℕ) (guid message : List ℕ)
        → IsWritable stamp guid received message
        → mail_in (Some (written stamp guid received message)) ≡ Held message }
    ensures named { (stamp received : ℕ) (guid message : List ℕ)
        → IsWritable stamp guid received message
        → guid_in (Some (written stamp guid received message)) ≡ guid }
{}

/// A file is of the format in at most one way.
pub fn reading_is_one()
    ensures { (m n : BoxContent) (b : List ℕ) → BoxText m b → BoxText n b → m ≡ n }
{}
