// The fields of a line, which have one space between.
ghost use Rattle.std.specs.Prelude.{◌≡◌, ◌≤◌, IfSome};
ghost use Rattle.std.specs.Iterator.{YieldsFirstRef, item_count};
ghost use Rattle.reading.specs.Call.{fields, numeral, most_id_digits};
ghost use Rattle.reading.specs.Fields.{fields_left, Reads, ReadsSign};

// What is left of a line from the next field on; none where its last field is given.
#[derive(Drop)]
pub(crate) struct Fields<'a> {
    rest: Option<&'a [u8]>,
}

impl<'a> Fields<'a> {
    pub(crate) fn of(line: &'a [u8]) -> Fields<'a>
        ensures { fields_left result ≡ fields line.now }
    {
        Fields { rest: Some(line) }
    }

    // A head's sign, the first byte of what is left.
    pub(crate) fn sign(&mut self) -> Option<u8>
        ensures { ReadsSign self.old result self.new }
    {
        let rest = self.rest?;
        match rest {
            [sign, text @ ..] => {
                let sign = *sign;
                self.rest = Some(text);
                Some(sign)
            }
            [] => None,
        }
    }

    // The next field, as a number of so many digits that say at most so much.
    // It is gone over once: as a field that `next` gives it would be gone over twice.
    #[inline(always)]
    pub(crate) fn numeral(&mut self, digits: usize, most: u32) -> Option<u32>
        requires { digits ≤ most_id_digits }
        ensures said { Reads (numeral digits most) self.old result self.new }
        ensures small { IfSome result (λ n. n ≤ most) }
    {
        let rest = self.rest?;
        let mut value: u64 = 0;
        for (i, b) in rest.iter().enumerate() {
            if !b.is_ascii_digit() {
                if *b != b' ' {
                    return None;
                }
                if i == 0 {
                    return None;
                }
                if u64::from(most) < value {
                    return None;
                }
                self.rest = Some(&rest[i + 1..]);
                return Some(value as u32);
            }
            if digits <= i {
                return None;
            }
            value = value * 10 + u64::from(*b - b'0');
        }
        if rest.is_empty() {
            return None;
        }
        if u64::from(most) < value {
            return None;
        }
        self.rest = None;
        Some(value as u32)
    }
}

impl<'a> Iterator for Fields<'a> {
    type Item = &'a [u8];

    ghost next_gives = { YieldsFirstRef fields_left };

    ghost remaining = { item_count fields_left };

    fn next(&mut self) -> Option<&'a [u8]> {
        let rest = self.rest?;
        match rest.iter().position(|b| *b == b' ') {
            Some(space) => {
                self.rest = Some(&rest[space + 1..]);
                Some(&rest[..space])
            }
            None => {
                self.rest = None;
                Some(rest)
            }
        }
    }
}
