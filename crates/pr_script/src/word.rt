// The words that lines begin with.
ghost use Rattle.pr_script.specs.Lines.{client_word, declaration_word, lone_word, node_word, stream_word, word_of};
ghost use Rattle.std.specs.Prelude.{◌≡◌};

/// The first word of a line.
#[derive(Clone, Copy)]
pub enum Word {
    Node,
    Client,
    Stream,
    Attach,
    Detach,
    Send,
    Checkpoint,
    Deliver,
    Flow,
    Write,
    Delete,
    Read,
    Move,
    Expect,
    Cut,
    State,
    Drop,
    Conflicts,
    Settle,
    Phase,
    End,
}

/// The word that the field is.
#[tactic(auto, unfolding(crate::specs::Lines::word_of))]
pub fn word_of(field: &[u8]) -> Option<Word>
    ensures { result ≡ word_of field.now }
{
    if let Some(word) = declaration_word(field) {
        return Some(word);
    }
    if let Some(word) = stream_word(field) {
        return Some(word);
    }
    if let Some(word) = client_word(field) {
        return Some(word);
    }
    if let Some(word) = node_word(field) {
        return Some(word);
    }
    lone_word(field)
}

#[tactic(auto, unfolding(crate::specs::Lines::declaration_word))]
fn declaration_word(field: &[u8]) -> Option<Word>
    ensures { result ≡ declaration_word field.now }
{
    if field == b"node".as_slice() {
        Some(Word::Node)
    } else if field == b"client".as_slice() {
        Some(Word::Client)
    } else if field == b"stream".as_slice() {
        Some(Word::Stream)
    } else {
        None
    }
}

#[tactic(auto, unfolding(crate::specs::Lines::stream_word))]
fn stream_word(field: &[u8]) -> Option<Word>
    ensures { result ≡ stream_word field.now }
{
    if field == b"attach".as_slice() {
        Some(Word::Attach)
    } else if field == b"detach".as_slice() {
        Some(Word::Detach)
    } else if field == b"send".as_slice() {
        Some(Word::Send)
    } else if field == b"checkpoint".as_slice() {
        Some(Word::Checkpoint)
    } else if field == b"deliver".as_slice() {
        Some(Word::Deliver)
    } else if field == b"flow".as_slice() {
        Some(Word::Flow)
    } else {
        None
    }
}

#[tactic(auto, unfolding(crate::specs::Lines::client_word))]
fn client_word(field: &[u8]) -> Option<Word>
    ensures { result ≡ client_word field.now }
{
    if field == b"write".as_slice() {
        Some(Word::Write)
    } else if field == b"delete".as_slice() {
        Some(Word::Delete)
    } else if field == b"read".as_slice() {
        Some(Word::Read)
    } else if field == b"move".as_slice() {
        Some(Word::Move)
    } else if field == b"expect".as_slice() {
        Some(Word::Expect)
    } else {
        None
    }
}

#[tactic(auto, unfolding(crate::specs::Lines::node_word))]
fn node_word(field: &[u8]) -> Option<Word>
    ensures { result ≡ node_word field.now }
{
    if field == b"cut".as_slice() {
        Some(Word::Cut)
    } else if field == b"state".as_slice() {
        Some(Word::State)
    } else if field == b"drop".as_slice() {
        Some(Word::Drop)
    } else if field == b"conflicts".as_slice() {
        Some(Word::Conflicts)
    } else {
        None
    }
}

#[tactic(auto, unfolding(crate::specs::Lines::lone_word))]
fn lone_word(field: &[u8]) -> Option<Word>
    ensures { result ≡ lone_word field.now }
{
    if field == b"settle".as_slice() {
        Some(Word::Settle)
    } else if field == b"phase".as_slice() {
        Some(Word::Phase)
    } else if field == b"end".as_slice() {
        Some(Word::End)
    } else {
        None
    }
}
