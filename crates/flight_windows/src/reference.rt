//! Samples of the reference pictures of a picture of a flight.

ghost use Rattle.std.specs.Prelude.{◌≡◌, ◌+◌, ◌*◌, ◌<◌, ◌≤◌, ℕ, ℤ, pos, ◌+ℤ◌, ◌≤ℤ◌, length, slice_get};
ghost use Rattle.std.specs.List.{All};
ghost use Rattle.flight_plan.specs.declared.row_range.Reference.TheVariants.{Base, Flight};
ghost use Rattle.inter_pred.specs.Passes.{at, IsByte};
ghost use Rattle.flight_windows.specs.Windows.{sample_named};

use crate::flight_window::{flight_row, flight_window};
use crate::greatest::sample_limit;
use crate::known_pass::KnownPass;
use crate::nothing::{clear, clear_window};
use crate::windows::FlightWindows;
use flight_plan::Reference;
use inter_pred::{RefWindow, Window};

impl<'b, K: KnownPass, R: RefWindow + Drop> RefWindow for FlightWindows<'b, K, R> {
    ghost use Rattle.flight_windows.specs.Windows.{references_in};

    ghost reference_at = { λ w. references_in w };

    fn row(&mut self, picture: u32, component: u8, x: i32, y: i32, out: &mut [u16]) {
        match self.name_of(picture) {
            Some(name) => self.row_of(name, component, x, y, out),
            None => clear(out),
        }
    }

    fn window(&mut self, from: Window, out: &mut [u16; 5112]) {
        match self.name_of(from.picture) {
            Some(name) => self.window_of(name, from, out),
            None => clear_window(out),
        }
    }
}

impl<'b, K: KnownPass, R: RefWindow + Drop> FlightWindows<'b, K, R> {
    /// The name of the picture at a place.
    fn name_of(&self, place: u32) -> Option<Reference>
        ensures { result ≡ slice_get self.now.names place }
    {
        match self.names.get(place as usize) {
            Some(name) => Some(*name),
            None => None,
        }
    }

    /// A line of the picture that has a name.
    fn row_of(&mut self, name: Reference, component: u8, x: i32, y: i32, out: &mut [u16])
        requires count { length out.old ≤ 71 }
        requires place { x ≤ℤ pos 1073741824 }
        ensures value { (k : ℕ) → k < length out.old
            → at out.new k ≡ sample_named self.old name component (x +ℤ pos k) y }
        ensures same { self.new ≡ self.old }
    {
        match name {
            Reference::Base(place) => self.row_of_base(place, component, x, y, out),
            Reference::Flight(place) => self.row_of_flight(place, component, x, y, out),
        }
    }

    /// A window of it, in lines of 72.
    fn window_of(&mut self, name: Reference, from: Window, out: &mut [u16; 5112])
        requires size { (from.width ≤ 71) × (from.height ≤ 71) }
        requires place { (from.x ≤ℤ pos 1073741824) × (from.y ≤ℤ pos 1073741824) }
        ensures value { (i j : ℕ) → i < from.width → j < from.height
            → at out.new (72 * j + i)
            ≡ sample_named self.old name from.component (from.x +ℤ pos i) (from.y +ℤ pos j) }
        ensures bytes { ((x y : ℤ) → sample_named self.old name from.component x y < 256)
            → All IsByte out.old → All IsByte out.new }
        ensures same { self.new ≡ self.old }
    {
        match name {
            Reference::Base(place) => self.window_of_base(place, from, out),
            Reference::Flight(place) => self.window_of_flight(place, from, out),
        }
    }

    /// A line of a picture that was decoded before the flight.
    fn row_of_base(&mut self, place: u32, component: u8, x: i32, y: i32, out: &mut [u16])
        requires count { length out.old ≤ 71 }
        requires place { x ≤ℤ pos 1073741824 }
        ensures value { (k : ℕ) → k < length out.old
            → at out.new k ≡ sample_named self.old (Base place) component (x +ℤ pos k) y }
        ensures same { self.new ≡ self.old }
    {
        self.bases.row(place, component, x, y, out);
    }

    /// A window of one.
    fn window_of_base(&mut self, place: u32, from: Window, out: &mut [u16; 5112])
        requires size { (from.width ≤ 71) × (from.height ≤ 71) }
        requires place { (from.x ≤ℤ pos 1073741824) × (from.y ≤ℤ pos 1073741824) }
        ensures value { (i j : ℕ) → i < from.width → j < from.height
            → at out.new (72 * j + i)
            ≡ sample_named self.old (Base place) from.component (from.x +ℤ pos i) (from.y +ℤ pos j) }
        ensures bytes { ((x y : ℤ) → sample_named self.old (Base place) from.component x y < 256)
            → All IsByte out.old → All IsByte out.new }
        ensures same { self.new ≡ self.old }
    {
        let of_base = Window {
            picture: place,
            component: from.component,
            x: from.x,
            y: from.y,
            width: from.width,
            height: from.height,
        };
        self.bases.window(of_base, out);
    }

    /// A line of a picture of the flight.
    fn row_of_flight(&mut self, place: u32, component: u8, x: i32, y: i32, out: &mut [u16])
        requires count { length out.old ≤ 71 }
        requires place { x ≤ℤ pos 1073741824 }
        ensures value { (k : ℕ) → k < length out.old
            → at out.new k ≡ sample_named self.old (Flight place) component (x +ℤ pos k) y }
        ensures same { self.new ≡ self.old }
    {
        if component < 3 {
            self.flight_line(place, component as usize, x, y, out);
        } else {
            clear(out);
        }
    }

    /// A window of one.
    fn window_of_flight(&mut self, place: u32, from: Window, out: &mut [u16; 5112])
        requires size { (from.width ≤ 71) × (from.height ≤ 71) }
        requires place { (from.x ≤ℤ pos 1073741824) × (from.y ≤ℤ pos 1073741824) }
        ensures value { (i j : ℕ) → i < from.width → j < from.height
            → at out.new (72 * j + i)
            ≡ sample_named self.old (Flight place) from.component (from.x +ℤ pos i) (from.y +ℤ pos j) }
        ensures bytes { ((x y : ℤ) → sample_named self.old (Flight place) from.component x y < 256)
            → All IsByte out.old → All IsByte out.new }
        ensures same { self.new ≡ self.old }
    {
        if from.component < 3 {
            self.flight_lines(place, from, out);
        } else {
            clear_window(out);
        }
    }

    /// A line of one, of one of the three components.
    fn flight_line(&mut self, place: u32, c: usize, x: i32, y: i32, out: &mut [u16])
        requires component { c < 3 }
        requires count { length out.old ≤ 71 }
        requires place { x ≤ℤ pos 1073741824 }
        ensures value { (k : ℕ) → k < length out.old
            → at out.new k ≡ sample_named self.old (Flight place) c (x +ℤ pos k) y }
        ensures same { self.new ≡ self.old }
    {
        let greatest = sample_limit(self.sps, c);
        flight_row(&self.rows, &mut self.pass, place, c, greatest, x, y, out);
    }

    /// A window of one, of one of these.
    fn flight_lines(&mut self, place: u32, from: Window, out: &mut [u16; 5112])
        requires component { from.component < 3 }
        requires size { (from.width ≤ 71) × (from.height ≤ 71) }
        requires place { (from.x ≤ℤ pos 1073741824) × (from.y ≤ℤ pos 1073741824) }
        ensures value { (i j : ℕ) → i < from.width → j < from.height
            → at out.new (72 * j + i)
            ≡ sample_named self.old (Flight place) from.component (from.x +ℤ pos i) (from.y +ℤ pos j) }
        ensures bytes { ((x y : ℤ) → sample_named self.old (Flight place) from.component x y < 256)
            → All IsByte out.old → All IsByte out.new }
        ensures same { self.new ≡ self.old }
    {
        let greatest = sample_limit(self.sps, from.component as usize);
        flight_window(&self.rows, &mut self.pass, place, greatest, from, out);
    }
}
