// Laws of the grammar, and of feeds.
ghost use Rattle.pr_inval.specs.declared.msg.Msg.{Msg};
ghost use Rattle.pr_names.specs.Name.{IsName};
ghost use Rattle.pr_names.specs.Span.{Span};
ghost use Rattle.pr_sets.specs.Spans.{IsSet};
ghost use Rattle.pr_stamps.specs.Point.{IsStamp, Point};
ghost use Rattle.pr_vectors.specs.Vector.{IsVector};
ghost use Rattle.pr_wire.specs.declared.format.Format.{Format};
ghost use Rattle.pr_wire.specs.Feeding.{Event, Fed, Runs, bytes_given, bytes_taken, counted, new_feed};
ghost use Rattle.pr_wire.specs.Frames.{IsBad, IsFrame, IsPartial};
ghost use Rattle.pr_inval.specs.Messages.{IsMessage};
ghost use Rattle.pr_wire.specs.Messages.{HasNoDelete, HasSpelling, IsInWidth};
ghost use Rattle.pr_wire.specs.Reading.{eight_at, four_at, name_at, stamp_at, target_at, vector_at};
ghost use Rattle.pr_wire.specs.Spelling.{content, eight, four, list_text, name_text, span_text, spelling, stamp_text, vector_text};
ghost use Rattle.std.specs.Prelude.{◌≡◌, ◌≤◌, ◌<◌, ◌^◌, ◌++◌, ℕ, List, Some, length};

/// A message has just one spelling in format 2, and just one in format 1 where no write or row of it is a delete.
pub fn messages_have_one_spelling()
    ensures two { (m : Msg) → IsMessage m → IsInWidth m → (a : List ℕ) × IsFrame Format.Two m a }
    ensures one { (m : Msg) → IsMessage m → IsInWidth m → HasNoDelete m.kind → (a : List ℕ) × IsFrame Format.One m a }
    ensures only { (f : Format) (m : Msg) (a b : List ℕ) → IsFrame f m a → IsFrame f m b → a ≡ b }
{}

/// A frame spells one message in one format.
pub fn frames_spell_one_message()
    ensures { (f g : Format) (m n : Msg) → HasSpelling f m → HasSpelling g n → spelling f m ≡ spelling g n → (f ≡ g) × (m ≡ n) }
{}

/// No frame begins another one: whatever bytes follow two frames, they are the same where the bytes are.
pub fn no_frame_begins_another()
    ensures { (f g : Format) (m n : Msg) (x y : List ℕ) → HasSpelling f m → HasSpelling g n → spelling f m ++ x ≡ spelling g n ++ y → (f ≡ g) × (m ≡ n) × (x ≡ y) }
{}

/// Bytes that begin with the frame of a message within the limit are neither bad nor a part of a frame.
pub fn messages_are_never_bad()
    ensures { (limit : ℕ) (f : Format) (m : Msg) (x : List ℕ) → HasSpelling f m → limit < 2 ^ 64 → length (content f m) ≤ limit → ¬ IsBad limit (spelling f m ++ x) × ¬ IsPartial limit (spelling f m ++ x) }
{}

/// Bytes that are bad stay so, whatever is pushed behind them: a feed that answers Bad answers it from then on.
pub fn bad_bytes_stay_bad()
    ensures { (limit : ℕ) (x y : List ℕ) → IsBad limit x → IsBad limit (x ++ y) }
{}

/// A field that was written is read again, whatever follows it.
pub fn fields_are_read_again()
    ensures fours { (number : ℕ) (rest : List ℕ) → number < 2 ^ 32 → four_at (four number ++ rest) ≡ Some (number, rest) }
    ensures eights { (number : ℕ) (rest : List ℕ) → number < 2 ^ 64 → eight_at (eight number ++ rest) ≡ Some (number, rest) }
    ensures names { (name rest : List ℕ) → IsName name → name_at (name_text name ++ rest) ≡ Some (name, rest) }
    ensures stamps { (stamp : Point) (rest : List ℕ) → IsStamp stamp → stamp_at (stamp_text stamp ++ rest) ≡ Some (stamp, rest) }
    ensures vectors { (vector rest : List ℕ) → IsVector vector → vector_at (vector_text vector ++ rest) ≡ Some (vector, rest) }
    ensures sets { (set : List Span) (rest : List ℕ) → IsSet set → length set < 2 ^ 64 → target_at (list_text span_text set ++ rest) ≡ Some (set, rest) }
{}

/// Whatever is pushed into a feed, and whenever messages are asked for: the bytes that were pushed are the spellings
/// of the messages that it gave, in order, and then its rest.
pub fn feeds_give_what_was_pushed()
    ensures pushed { (limit : ℕ) (events : List Event) (b : Fed) → Runs (new_feed limit) events b → bytes_taken events ≡ bytes_given events ++ b.rest }
    ensures given { (limit : ℕ) (events : List Event) (b : Fed) → Runs (new_feed limit) events b → b.given ≡ counted 0 (length (bytes_given events)) }
{}
