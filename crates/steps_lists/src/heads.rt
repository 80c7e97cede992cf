// Head words: what stands on top, and the word of a won exchange. The callers are the steps of the list moves.
ghost use Rattle.std.specs.Prelude.{◌≡◌};
ghost use Rattle.words.specs.Head.{item_of, advanced_word};

use words::head::Head;

// The number of the item on top plus one; 0 for none.
pub fn item_of(word: u64) -> usize
    ensures { result ≡ item_of word }
{
    let head = Head::of(word);
    head.item as usize
}

// The word after a won exchange that leaves `item` on top.
pub fn advanced(word: u64, item: u32) -> u64
    ensures { result ≡ advanced_word word item }
{
    Head::of(word).advance(item).word()
}
