ghost use Rattle.height_field.specs.Grid.{Sized};

use height_field::field::Field;

// A grid with a low and a high for each node, whose sides and numbers of both are admitted.
#[derive(Clone, Copy)]
pub struct Ranges<'a> {
    pub field: Field,
    pub lows: &'a [f64],
    pub highs: &'a [f64],
    pub ghost lows_sized: { Sized field lows.now },
    pub ghost highs_sized: { Sized field highs.now },
}
