// The first word of a line.

#[derive(Clone, Copy, PartialEq, Eq)]
pub enum Word {
    Fresh,
    Running,
    Moving,
    Ended,
    Drawn,
    Table,
    Tables,
    Call,
    Plain,
    Notice,
    Unheeded,
    Marked,
    Message,
    Messages,
    Numbered,
    Sent,
    Sound,
    Unsound,
    // An empty line, and one that only the reader reads.
    Remark,
}

// The word that a line starts with, where it is one of these.
pub fn word_of(line: &[u8]) -> Option<Word> {
    if line.is_empty() || line.starts_with(b"#") {
        return Some(Word::Remark);
    }
    let word = match line.split(|byte| *byte == b' ').next()? {
        b"fresh" => Word::Fresh,
        b"running" => Word::Running,
        b"moving" => Word::Moving,
        b"ended" => Word::Ended,
        b"drawn" => Word::Drawn,
        b"table" => Word::Table,
        b"tables" => Word::Tables,
        b"call" => Word::Call,
        b"plain" => Word::Plain,
        b"notice" => Word::Notice,
        b"unheeded" => Word::Unheeded,
        b"marked" => Word::Marked,
        b"message" => Word::Message,
        b"messages" => Word::Messages,
        b"numbered" => Word::Numbered,
        b"sent" => Word::Sent,
        b"sound" => Word::Sound,
        b"unsound" => Word::Unsound,
        _ => return None,
    };
    Some(word)
}
