ghost use Rattle.std.specs.Prelude.{◌≡◌};
ghost use Rattle.eris_check.specs.ReportForms as form;

use eris_words::LineWords;

fn is_setting_word(word: &[u8]) -> bool
    ensures { result ≡ form.is_setting_word word.now }
{
    word == b"set".as_slice() || word == b"plus".as_slice() || word == b"minus".as_slice()
}

// Whether none of the words that are left is that of a guard.
fn have_no_guard(words: &mut LineWords) -> bool
    ensures { result ≡ form.have_no_guard words.old }
{
    while let Some(word) = words.pop() {
        if word == b"guard".as_slice() {
            return false;
        }
    }
    true
}

/// Whether no guard stands behind a setting.
#[tactic(auto, unfolding(crate::specs::ReportForms::guards_come_first))]
pub(crate) fn guards_come_first(words: &mut LineWords) -> bool
    ensures { result ≡ form.guards_come_first words.old }
{
    while let Some(word) = words.pop() {
        if is_setting_word(word) {
            return have_no_guard(words);
        }
    }
    true
}
