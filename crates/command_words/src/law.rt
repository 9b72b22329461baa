//! What the plain forms of the commands mean: a law over the definition of words. Its function does nothing, and no call of the program
//! needs it.

ghost use Rattle.command_words.specs.PlainForms.{PlainFormsMean};

/// Each command but `gen`, with words that are not empty and no options, means this command with these words, a search with the default
/// settings and limits; `check FILE --budget N` has N as its budget and `past FILE --bound N` as its bound, where it is in range.
pub fn plain_forms_mean()
    ensures { PlainFormsMean }
{}
