// A form of words, by its name, and the numbers that stand in it. The forms are the caller's, and so are their words.
ghost use Rattle.std.specs.Prelude.{◌≡◌};
ghost use Rattle.text.specs.Phrases.{bare, one, two, three, four, either};

// A form, and its numbers in their order; behind the last of them zeros.
#[derive(Clone, Copy)]
pub struct Phrase<F> {
    pub form: F,
    pub numbers: [u64; 6],
}

impl<F> Phrase<F> {
    // A form without numbers.
    pub fn bare(form: F) -> Phrase<F>
        ensures { result ≡ bare form }
    {
        Phrase {
            form,
            numbers: [0; 6],
        }
    }

    // A form with one number.
    pub fn one(form: F, x: u64) -> Phrase<F>
        ensures { result ≡ one form x }
    {
        Phrase {
            form,
            numbers: [x, 0, 0, 0, 0, 0],
        }
    }

    // With two.
    pub fn two(form: F, x: u64, y: u64) -> Phrase<F>
        ensures { result ≡ two form x y }
    {
        Phrase {
            form,
            numbers: [x, y, 0, 0, 0, 0],
        }
    }

    // With three.
    pub fn three(form: F, x: u64, y: u64, z: u64) -> Phrase<F>
        ensures { result ≡ three form x y z }
    {
        Phrase {
            form,
            numbers: [x, y, z, 0, 0, 0],
        }
    }

    // With four.
    pub fn four(form: F, w: u64, x: u64, y: u64, z: u64) -> Phrase<F>
        ensures { result ≡ four form w x y z }
    {
        Phrase {
            form,
            numbers: [w, x, y, z, 0, 0],
        }
    }

    // One of two forms without numbers: the first where it is so.
    pub fn either(so: bool, first: F, second: F) -> Phrase<F>
    where
        F: Copy,
        ensures { result ≡ either so first second }
    {
        if so {
            return Phrase::bare(first);
        }
        Phrase::bare(second)
    }
}
