//! The forms of the writes of a settling, which `--writes=setpci` and `--writes=grub` name. `clap` has no option whose word
//! may be left out and stands behind `=`, so the form is read before the words go to it.
ghost use Rattle.std.specs.Prelude.{◌≡◌, IfOk, map};
ghost use Rattle.pciplan_words.specs.Forms as forms;

use std::alloc::{AllocError, Global};

/// Whose script the writes are printed as.
#[derive(Clone, Copy)]
pub enum Form {
    /// A shell's, over `setpci`.
    Setpci,
    /// GRUB's.
    Grub,
}

/// The word behind which options end.
const LAST: &str = "--";

/// The form that a word names.
fn form_of(word: &str) -> Option<Form>
    ensures { result ≡ forms.form_of word.now }
{
    if word == "--writes=setpci" {
        Some(Form::Setpci)
    } else if word == "--writes=grub" {
        Some(Form::Grub)
    } else {
        None
    }
}

/// The form that the first word names which names one, before any `--`.
pub fn form_in(words: &[&str]) -> Option<Form>
    ensures { result ≡ forms.form_in (map (λ w. w.now) words.now) }
{
    for word in words {
        if *word == LAST {
            return None;
        }
        if let Some(form) = form_of(word) {
            return Some(form);
        }
    }
    None
}

/// `--writes` in the place of a word that names a form.
fn plain_word<'a>(word: &'a str) -> &'a str
    ensures { result.now ≡ forms.plain_word word.now }
{
    if form_of(word).is_some() {
        "--writes"
    } else {
        word
    }
}

/// The words with `--writes` in the place of each that names a form, before any `--`.
pub fn plain_words<'a>(alloc: Global, words: &[&'a str]) -> Result<Vec<&'a str>, AllocError>
    ensures { IfOk result
        (λ plain. map (λ w. w.now) plain.items ≡ forms.plain_words (map (λ w. w.now) words.now)) }
{
    let mut plain = Vec::new(alloc);
    let mut ended = false;
    for word in words {
        ended = ended || *word == LAST;
        plain.push(if ended { *word } else { plain_word(word) })?;
    }
    Ok(plain)
}
