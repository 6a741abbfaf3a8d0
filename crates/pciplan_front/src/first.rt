//! The first word of a command line.
ghost use Rattle.std.specs.Prelude.{map, string_bytes};
ghost use Rattle.pciplan_front.specs.FirstWords.{IsCommandOfWords};

/// Whose the words are.
#[derive(Clone, Copy, Debug, PartialEq, Eq)]
pub enum First {
    /// Those of a command of two texts, or of none.
    Texts,
    Here,
    Explain,
    Version,
    Json,
    Picture,
}

/// Whose the words are, by the first one.
pub fn first_of(words: &[String]) -> First
    ensures { IsCommandOfWords (map string_bytes words.now) result }
{
    let Some(word) = words.first() else {
        return First::Texts;
    };
    match word.as_str() {
        "here" => First::Here,
        "explain" => First::Explain,
        "version" => First::Version,
        "json" => First::Json,
        "picture" => First::Picture,
        _ => First::Texts,
    }
}
