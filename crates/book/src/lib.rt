// The book of demand 3: what stands under each code, told from the events and their replies alone, and the balance of the
// boxes over the replies. Nothing here can name a line or the memories.
#![tactic(auto)]

ghost use Rattle.book.specs.Laws.{Laws};

// What the book's sentences come to. It says nothing of the code: it is a theorem on the definitions.
pub fn laws()
    ensures { Laws }
{}
