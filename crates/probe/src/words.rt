// Lists of numbers, read and written one number after the other; that C sees lists of a length and numbers alone is why
// there is a count beside a list, and 0 for none.
use std::slice::Iter;

// The next number of a script, or 0 beyond its end.
pub(crate) fn next(script: &mut Iter<'_, u32>) -> u32 {
    script.next().copied().unwrap_or(0)
}

// A list that is written from its front, and how many numbers that took; those beyond its end are only counted.
#[derive(Drop)]
pub(crate) struct Written<'a> {
    out: &'a mut [u32],
    count: usize,
}

impl<'a> Written<'a> {
    pub(crate) fn new(out: &'a mut [u32]) -> Written<'a> {
        Written { out, count: 0 }
    }

    pub(crate) fn count(&self) -> usize {
        self.count
    }

    pub(crate) fn put(&mut self, number: u32) {
        if let Some(place) = self.out.get_mut(self.count) {
            *place = number;
        }
        self.count = self.count.wrapping_add(1);
    }

    pub(crate) fn put_all(&mut self, numbers: [u32; 6]) {
        for number in numbers {
            self.put(number);
        }
    }
}
