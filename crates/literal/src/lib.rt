// Terms, literals and environments, and matching a literal against a ground one.
#![tactic(auto)]

ghost use Rattle.std.specs.Prelude.{◌≡◌, ◌||◌, eqb, cond, Some, None};
ghost use Rattle.literal.specs.Literal.{is_constant, is_ground, same, opposite};
ghost use Rattle.literal.specs.Word.{word};
ghost use Rattle.literal.specs.Environment.{value, instantiate, empty_env, is_env, replace, bind};
ghost use Rattle.literal.specs.Match.{match_term, match_literal};
ghost use Rattle.literal.specs.Divide.{divide};

// Terms from this number on are the variables V0 to V7, and lower ones are constants.
pub const FIRST_VARIABLE: u16 = 65528;

pub const VARIABLES: usize = 8;

// A divide's predicate field is q plus this many times r, for the variables Vq and Vr.
pub const REMAINDER_FACTOR: u16 = 8;

// Fields from this number on name no two variables.
pub const VARIABLE_PAIRS: u16 = 64;

// What a negative literal's head has above its predicate.
pub const NEGATIVE: u16 = 32768;

// How many numbers 16 bits hold.
const NUMBERS: u64 = 65536;

// A literal as it is stored: the predicate with its sign, and three terms, 0 where unused.
#[derive(Clone, Copy, PartialEq, Eq)]
pub struct Literal {
    pub head: u16,
    pub first: u16,
    pub second: u16,
    pub third: u16,
}

// What each variable stands for: its constant, or itself while it is unbound. Numbers and no Options, as an image stores them.
#[derive(Clone, Copy, PartialEq, Eq)]
pub struct Env {
    pub terms: [u16; VARIABLES],
}

impl Literal {
    // Whether it has no variables.
    #[tactic(auto, unfolding(crate::specs::Literal::is_ground))]
    pub fn is_ground(self) -> bool
        ensures { result ≡ is_ground self }
    {
        self.first < FIRST_VARIABLE && self.second < FIRST_VARIABLE && self.third < FIRST_VARIABLE
    }

    // The eight bytes as one number: the head lowest, then the terms in order.
    #[tactic(auto, unfolding(crate::specs::Word::word))]
    fn word(self) -> u64
        ensures { result ≡ word self }
    {
        ((self.third as u64 * NUMBERS + self.second as u64) * NUMBERS + self.first as u64) * NUMBERS
            + self.head as u64
    }

    // Whether two literals are the same, by one comparison: the derived `==` makes up to four (a search 2.3 times the time).
    pub fn is_same(self, other: Literal) -> bool
        ensures { result ≡ same self other }
    {
        self.word() == other.word()
    }

    // The literal with the other sign.
    #[tactic(auto, unfolding(crate::specs::Literal::opposite))]
    pub fn opposite(self) -> Literal
        ensures { result ≡ opposite self }
    {
        let head = if self.head < NEGATIVE {
            self.head + NEGATIVE
        } else {
            self.head - NEGATIVE
        };
        Literal { head, ..self }
    }
}

// A constant, or the variable itself.
fn is_entry(variable: u16, term: u16) -> bool
    ensures { result ≡ (is_constant term || eqb term variable) }
{
    term < FIRST_VARIABLE || term == variable
}

impl Env {
    // The environment in which nothing is bound.
    pub fn empty() -> Env
        ensures { result ≡ empty_env }
    {
        Env {
            terms: [65528, 65529, 65530, 65531, 65532, 65533, 65534, 65535],
        }
    }

    // Whether each variable stands for a constant or, while it is unbound, for itself.
    #[tactic(auto, using(crate::proofs::EntryLaws::entry_laws))]
    pub fn is_env(self) -> bool
        ensures { result ≡ is_env self }
    {
        for (i, term) in self.terms.iter().enumerate() {
            let variable = FIRST_VARIABLE + i as u16;
            if !is_entry(variable, *term) {
                return false;
            }
        }
        true
    }

    // What a term stands for.
    #[tactic(auto, unfolding(crate::specs::Environment::value))]
    pub fn value_of(self, term: u16) -> u16
        ensures { result ≡ value self term }
    {
        if term < FIRST_VARIABLE {
            return term;
        }
        let i = (term - FIRST_VARIABLE) as usize;
        self.terms[i]
    }

    // The literal with its bound variables replaced by their constants.
    #[tactic(auto, unfolding(crate::specs::Environment::instantiate))]
    pub fn instantiated(self, l: Literal) -> Literal
        ensures { result ≡ instantiate self l }
    {
        Literal {
            head: l.head,
            first: self.value_of(l.first),
            second: self.value_of(l.second),
            third: self.value_of(l.third),
        }
    }

    // The environment in which all that stood for the variable stands for the constant.
    #[tactic(auto, using(lists::proofs::MapLaws::mapped_end), unfolding(crate::specs::Environment::bind))]
    fn bound(mut self, variable: u16, constant: u16) -> Env
        ensures { result ≡ bind variable constant self }
    {
        for term in self.terms.iter_mut() {
            if *term == variable {
                *term = constant;
            }
        }
        self
    }

    // A term against a constant.
    #[tactic(auto, unfolding(crate::specs::Match::match_term))]
    fn match_term(self, term: u16, constant: u16) -> Option<Env>
        ensures { result ≡ match_term term constant self }
    {
        let now = self.value_of(term);
        if now < FIRST_VARIABLE {
            return (now == constant).then_some(self);
        }
        Some(self.bound(now, constant))
    }

    // The literal against a ground one, from this environment.
    #[tactic(auto, unfolding(crate::specs::Match::match_literal))]
    pub fn match_literal(self, l: Literal, known: Literal) -> Option<Env>
        ensures { result ≡ match_literal l known self }
    {
        if l.head != known.head {
            return None;
        }
        let after_one = self.match_term(l.first, known.first)?;
        let after_two = after_one.match_term(l.second, known.second)?;
        after_two.match_term(l.third, known.third)
    }

    // The constant that a term stands for.
    fn constant_of(self, term: u16) -> Option<u16>
        ensures { result ≡ cond (is_constant (value self term)) (Some (value self term)) None }
    {
        let now = self.value_of(term);
        (now < FIRST_VARIABLE).then_some(now)
    }

    // The variable that a term stands for.
    fn variable_of(self, term: u16) -> Option<u16>
        ensures { result ≡ cond (is_constant (value self term)) None (Some (value self term)) }
    {
        let now = self.value_of(term);
        (FIRST_VARIABLE <= now).then_some(now)
    }

    // The first term divided by the second: the quotient and the remainder are bound to the two variables that the head names.
    #[tactic(auto, unfolding(crate::specs::Divide::divide, crate::specs::Divide::can_divide))]
    pub fn divide(self, l: Literal) -> Option<Env>
        ensures { result ≡ divide l self }
    {
        if VARIABLE_PAIRS <= l.head {
            return None;
        }
        let length = self.constant_of(l.first)?;
        let panel = self.constant_of(l.second)?;
        if panel == 0 {
            return None;
        }
        let quotient = self.variable_of(FIRST_VARIABLE + l.head % REMAINDER_FACTOR)?;
        let remainder = self.variable_of(FIRST_VARIABLE + l.head / REMAINDER_FACTOR)?;
        let once = self.bound(quotient, length / panel);
        Some(once.bound(remainder, length % panel))
    }
}
