//! Laws of what is sent, and of what comes in.
ghost use Rattle.std.specs.Prelude.{◌≡◌, ℕ, ◌+◌, ◌≤◌, ◌++◌, List, [], ◌∷◌, length};
ghost use Rattle.gdb_packets.specs.Framing.{escaped, framed};
ghost use Rattle.gdb_packets.specs.Reading.{Reading, arrivals, most_text, outside, reading_after};
ghost use Rattle.gdb_packets.specs.declared.arrival.Arrival.TheVariants.{Packet};

/// A payload that is framed is read back, and nothing else, where its text is not too long.
pub fn framed_is_read_back()
    ensures came { (payload : List ℕ) → length (escaped payload) ≤ most_text → arrivals outside (framed payload) ≡ Packet payload ∷ [] }
    ensures after { (payload : List ℕ) → length (escaped payload) ≤ most_text → reading_after outside (framed payload) ≡ outside }
{}

/// Wherever the input is cut, the same arrives.
pub fn cuts_change_nothing()
    ensures came { (r : Reading) (xs ys : List ℕ) → arrivals r (xs ++ ys) ≡ arrivals r xs ++ arrivals (reading_after r xs) ys }
    ensures after { (r : Reading) (xs ys : List ℕ) → reading_after r (xs ++ ys) ≡ reading_after (reading_after r xs) ys }
{}

/// Of a packet without end a bounded text is kept.
pub fn texts_are_bounded()
    ensures { (bytes : List ℕ) → length (reading_after outside bytes).text ≤ most_text + 1 }
{}
