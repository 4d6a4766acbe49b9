// Laws of asks, and of messages that are pulled. Each is the contract of a function that does nothing.
ghost use Rattle.pr_serve.specs.declared.ask.Ask.{Ask};
ghost use Rattle.pr_serve.specs.Asks.{IsAsk, ask_at, ask_text};
ghost use Rattle.pr_serve.specs.Pulling.{after};
ghost use Rattle.pr_story.specs.declared.entry.Entry.{Entry};
ghost use Rattle.pr_serve.specs.Laws.{HonestStayClosed, SentStayValid};
ghost use Rattle.std.specs.Prelude.{◌≡◌, ◌<◌, ◌++◌, List, ℕ, Some, reverse, slice_index};

/// What is read of bytes is an ask that they begin with the spelling of, and an ask that was spelled is read again,
/// whatever follows it.
pub fn asks_have_one_spelling()
    ensures read { (bytes rest : List ℕ) (q : Ask) → ((i : ℕ) → slice_index bytes i < 256) → ask_at bytes ≡ Some (q, rest) → IsAsk q × (bytes ≡ ask_text q ++ rest) }
    ensures again { (q : Ask) (rest : List ℕ) → IsAsk q → ask_at (ask_text q ++ rest) ≡ Some (q, rest) }
{}

/// No ask begins another one: whatever bytes follow two asks, they are the same where the bytes are.
pub fn no_ask_begins_another()
    ensures { (p q : Ask) (x y : List ℕ) → IsAsk p → IsAsk q → ask_text p ++ x ≡ ask_text q ++ y → (p ≡ q) × (x ≡ y) }
{}

/// Entries that a node makes stand at the end of its journal's list, in their order.
pub fn new_entries_come_last()
    ensures { (es j : List Entry) → reverse (after es j) ≡ reverse j ++ es }
{}

/// Where a node takes in messages that were sent to it, the history goes on to be valid with the entries, and each node's
/// vector stays causally closed.
pub fn pulled_messages_keep_valid()
    ensures { SentStayValid }
{}

/// Where a node takes in messages that are honest in a valid history, whoever sent them, its vector stays causally closed
/// in that history.
pub fn honest_messages_stay_closed()
    ensures { HonestStayClosed }
{}
