// What is lent, found sound: of the right shape, and standing as the rules ask. Where one is made, both are proved; what takes one need not ask for them.
ghost use Rattle.std.specs.Prelude.{◌≡◌, true};
ghost use Rattle.rules.specs.Lent.{lent};
ghost use Rattle.rules.specs.Shape.{shaped};
ghost use Rattle.rules.specs.Sound.{sound};

use rules::Head;

#[derive(Clone, Copy)]
pub struct Sound<'a> {
    pub head: Head,
    pub ext: &'a [u32],
    pub blk: &'a [u32],
    pub spare: &'a [u32],
    pub ghost shaped: { shaped (lent head ext.now blk.now spare.now) ≡ true },
    pub ghost sound: { sound (lent head ext.now blk.now spare.now) ≡ true },
}
