//! The words of a call table as a list, and what an access does to them.

ghost use Rattle.std.specs.Prelude.{◌≡◌, length};
ghost use Rattle.smp_words.specs.Size.{table_size};
ghost use Rattle.smp_words.specs.Layout.{number_in, put_in};
ghost use Rattle.smp_words.specs.Access.{word_of, words_after};

use smp_words::access::Access;
use smp_words::word::{Word, call_index};

/// The number in a word; 0 where there is no such word.
pub fn read(words: &[u64], word: Word) -> u64
    requires { length words.now ≡ table_size }
    ensures { result ≡ number_in words.now word }
{
    match call_index(word) {
        Some(index) => words[index],
        None => 0,
    }
}

fn write(words: &mut [u64], word: Word, number: u64)
    requires { length words.old ≡ table_size }
    ensures { words.new ≡ put_in words.old word number }
{
    if let Some(index) = call_index(word) {
        words[index] = number;
    }
}

/// Makes one access, and answers what it found.
pub fn perform(words: &mut [u64], access: Access) -> u64
    requires { length words.old ≡ table_size }
    ensures found { result ≡ number_in words.old (word_of access) }
    ensures words { words.new ≡ words_after words.old access }
{
    let word = access.word();
    let found = read(words, word);
    if let Some(number) = access.puts(found) {
        write(words, word, number);
    }
    found
}
