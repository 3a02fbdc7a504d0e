//! What holds of the books.
ghost use Rattle.std.specs.Prelude.{ℕ, ◌≤◌};
ghost use Rattle.mlp_layout.specs.Layout.{IsLayout};
ghost use Rattle.mlp_books.specs.Books.{IsBook, book1, book2, book3, symbol_of, symbol_in};

/// No code begins another; 000000000 and 010000000 begin with no code, and every other nine bits do with one.
pub fn law_books()
    ensures one { IsBook book1 }
    ensures two { IsBook book2 }
    ensures three { IsBook book3 }
{}

/// What is read as a symbol is spelled so, what is spelled so is read, and a fault is read exactly where it stands.
pub fn law_symbols()
    ensures one { IsLayout (symbol_of book1) }
    ensures two { IsLayout (symbol_of book2) }
    ensures three { IsLayout (symbol_of book3) }
    ensures by_number { (book : ℕ) → IsLayout (symbol_in book) }
{}
