//! Which options a command line gives.

ghost use Rattle.std.specs.Prelude.{◌≡◌, drop, IsOk};
ghost use Rattle.bt_bed.specs.model.Order.{is_among};
ghost use Rattle.bt_tool.specs.calls.Plan.{words_seen};
ghost use Rattle.bt_tool.specs.model.Options.{options, is_given};
ghost use Rattle.bt_front.specs.model.Words.{has_repeated, items_in, option_names};
ghost use Rattle.bt_front.specs.inside.Options.{options_in, takes_value, width};

// Whether a word is an option whose value is the next word. It is so for every command that has the option.
#[tactic(auto, unfolding(crate::specs::inside::Options::takes_value))]
fn takes_value(word: &str) -> bool
    ensures { result ≡ takes_value word.now }
{
    matches!(
        word,
        "-i" | "-a"
            | "-b"
            | "-g"
            | "-f"
            | "-d"
            | "-S"
            | "-held"
            | "-strand"
            | "-fi"
            | "-bed"
            | "-fo"
            | "-mc"
    )
}

// How many words an option and its value are.
fn width(option: &str) -> usize
    ensures { result ≡ width option.now }
{
    if takes_value(option) { 2 } else { 1 }
}

/// Whether a command line that has a plan gives this option.
pub(crate) fn is_given(words: &[String], option: &str) -> bool
    requires { IsOk (options (words_seen words.now)) }
    ensures { result ≡ is_given (items_in (words_seen words.now)) option.now }
{
    is_given_from(words, 1, option)
}

// Whether the option is given from this word on.
fn is_given_from(words: &[String], from: usize, option: &str) -> bool
    ensures { result ≡ is_among (options_in (drop from (words_seen words.now))) option.now }
{
    let mut at = from;
    while at < words.len() {
        let word = words[at].as_str();
        if word == option {
            return true;
        }
        at += width(word);
    }
    false
}

/// Whether a command line that has a plan gives an option twice.
pub(crate) fn has_repeated(words: &[String]) -> bool
    requires { IsOk (options (words_seen words.now)) }
    ensures { result ≡ has_repeated (option_names (items_in (words_seen words.now))) }
{
    let mut at = 1;
    while at < words.len() {
        let option = words[at].as_str();
        let next = at + width(option);
        if is_given_from(words, next, option) {
            return true;
        }
        at = next;
    }
    false
}
