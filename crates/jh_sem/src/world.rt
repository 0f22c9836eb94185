ghost use Rattle.std.specs.Prelude.{◌≡◌, ◌<◌, suc, true, slice_get, is_some};
ghost use Rattle.jh_form.specs.Meaning.{Interp};
ghost use Rattle.jh_arena.specs.table.Entries.{Listing, the_name};

use jh_arena::table::Table;

/// An interpretation of the names of a table, which are given by their numbers in its pool of names.
pub trait World {
    ghost listing: { Self → Listing };

    ghost meaning: { Self → Interp };

    /// The table.
    fn table(&self) -> &Table
        ensures { result.now ≡ listing self.now };

    /// The greatest object of the universe.
    fn last(&self) -> u32
        ensures { result ≡ (meaning self.now).last };

    /// The object of a name.
    fn object(&self, name: usize) -> u32
        requires { is_some (slice_get (listing self.now).pools.names name) ≡ true }
        ensures value { result ≡ (meaning self.now).object (the_name (slice_get (listing self.now).pools.names name)) }
        ensures inside { result < suc (meaning self.now).last };

    /// The number of a name.
    fn number(&self, name: usize) -> i128
        requires { is_some (slice_get (listing self.now).pools.names name) ≡ true }
        ensures { result ≡ (meaning self.now).number (the_name (slice_get (listing self.now).pools.names name)) };

    /// The truth of a name.
    fn truth(&self, name: usize) -> bool
        requires { is_some (slice_get (listing self.now).pools.names name) ≡ true }
        ensures { result ≡ (meaning self.now).truth (the_name (slice_get (listing self.now).pools.names name)) };

    /// Whether an object is a member of the set of a name.
    fn has(&self, name: usize, object: u32) -> bool
        requires name { is_some (slice_get (listing self.now).pools.names name) ≡ true }
        requires inside { object < suc (meaning self.now).last }
        ensures { result ≡ (meaning self.now).set (the_name (slice_get (listing self.now).pools.names name)) object };

    /// The object that the field of a name has at an object.
    fn object_at(&self, name: usize, at: u32) -> u32
        requires name { is_some (slice_get (listing self.now).pools.names name) ≡ true }
        requires inside { at < suc (meaning self.now).last }
        ensures value { result ≡ ((meaning self.now).field (the_name (slice_get (listing self.now).pools.names name))).objects at }
        ensures inside { result < suc (meaning self.now).last };

    /// The number that the field of a name has at an object.
    fn number_at(&self, name: usize, at: u32) -> i128
        requires name { is_some (slice_get (listing self.now).pools.names name) ≡ true }
        requires inside { at < suc (meaning self.now).last }
        ensures { result ≡ ((meaning self.now).field (the_name (slice_get (listing self.now).pools.names name))).numbers at };

    /// The truth that the field of a name has at an object.
    fn truth_at(&self, name: usize, at: u32) -> bool
        requires name { is_some (slice_get (listing self.now).pools.names name) ≡ true }
        requires inside { at < suc (meaning self.now).last }
        ensures { result ≡ ((meaning self.now).field (the_name (slice_get (listing self.now).pools.names name))).truths at };

    /// Whether an object is a member of the set that the field of a name has at an object.
    fn has_at(&self, name: usize, at: u32, object: u32) -> bool
        requires name { is_some (slice_get (listing self.now).pools.names name) ≡ true }
        requires at { at < suc (meaning self.now).last }
        requires inside { object < suc (meaning self.now).last }
        ensures { result ≡ ((meaning self.now).field (the_name (slice_get (listing self.now).pools.names name))).sets at object };
}
