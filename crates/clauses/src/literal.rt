// Literals as signed 16-bit numbers: +v and -v, v from 1 to 729. 0 is none. They stay numbers, as hosts lend them in an order: a type would be made of
// each that is read.
ghost use Rattle.std.specs.Prelude.{◌≡◌, ◌↔◌, IsTrue, suc, ◌<◌, pos, negsuc, nat_abs};
ghost use Rattle.clauses.specs.Literal.{Literal, is_literal, negation, mark_index};

// The number of the literal's variable.
pub fn magnitude(l: i16) -> usize
    ensures { result ≡ nat_abs l }
{
    l.unsigned_abs() as usize
}

// Whether there is such a literal: from 1 to 729 and from -729 to -1.
#[tactic(auto, unfolding(crate::specs::Literal::is_literal))]
pub fn is_literal(l: i16) -> bool
    ensures exact { result ≡ is_literal l }
    ensures literal { IsTrue result ↔ Literal l }
{
    l != 0 && -729 <= l && l <= 729
}

// The negation of a literal; 0 for what is none. 0 is no literal and is its own negation, so an Option would tell nothing more.
pub fn negated(l: i16) -> i16
    ensures { result ≡ negation l }
{
    if is_literal(l) { -l } else { 0 }
}

// The place of the variable's mark.
pub fn mark_index(l: i16) -> usize
    ensures { result ≡ mark_index l }
{
    magnitude(l).saturating_sub(1)
}

// The literal that makes the variable at a mark's place true. Places are plain numbers, as they are computed.
pub fn positive(place: usize) -> i16
    requires { place < 729 }
    ensures { result ≡ pos (suc place) }
{
    1 + (place as i16)
}

// The literal that makes it false.
pub fn negative(place: usize) -> i16
    requires { place < 729 }
    ensures { result ≡ negsuc place }
{
    -1 - (place as i16)
}
