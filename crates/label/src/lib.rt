// Where the two blocks stand, and block 0, the label: what a write, a copy, a recall, a lock and a power-on do to it.
#![tactic(auto)]

ghost use Rattle.std.specs.Prelude.{◌≡◌, ◌<◌};
ghost use Rattle.label.specs.Label.{in_label, in_block, label_written_of, label_copied_of, label_powered_of, label_recalled_of, common_locked_of};

use state::{Common, Label};

// Whether the address is of block 0.
#[tactic(auto, unfolding(crate::specs::Label::in_label))]
pub fn in_label(a: usize) -> bool
    ensures { result ≡ in_label a }
{
    (0x20..0x30).contains(&a)
}

// Whether the address is of block 1.
#[tactic(auto, unfolding(crate::specs::Label::in_block))]
pub fn in_block(a: usize) -> bool
    ensures { result ≡ in_block a }
{
    (0x60..0x80).contains(&a)
}

// 6Ch: bytes written from the address a upward. A whole label, the usual write, is taken at once.
#[tactic(auto, unfolding(crate::specs::Label::label_written_of))]
pub fn written(mut label: Label, locked: bool, a: usize, bytes: &[u8]) -> Label
    requires { a < 256 }
    ensures { result ≡ label_written_of label locked a bytes.now }
{
    if !locked {
        if a == 0x20 && 16 <= bytes.len() {
            // An array goes through a variable, here and below: the check covers none that is put straight into a field.
            let whole = slices::sixteen(bytes, 0);
            label.shadow = whole;
        } else {
            let mut shadow = label.shadow;
            slices::laid(&mut shadow, 0x20, a, bytes);
            label.shadow = shadow;
        }
    }
    label
}

// 48h at the address a.
#[tactic(auto, unfolding(crate::specs::Label::label_copied_of))]
pub fn copied(mut label: Label, locked: bool, a: usize) -> Label
    ensures { result ≡ label_copied_of label locked a }
{
    if in_label(a) && !locked {
        let shadow = label.shadow;
        label.eeprom = shadow;
    }
    label
}

// A power-on.
pub fn powered(mut label: Label) -> Label
    ensures { result ≡ label_powered_of label }
{
    let eeprom = label.eeprom;
    label.shadow = eeprom;
    label
}

// B8h at the address a.
#[tactic(auto, unfolding(crate::specs::Label::label_recalled_of))]
pub fn recalled(mut label: Label, a: usize) -> Label
    ensures { result ≡ label_recalled_of label a }
{
    if in_label(a) {
        let eeprom = label.eeprom;
        label.shadow = eeprom;
    }
    label
}

// 6Ah at the address a.
#[tactic(auto, unfolding(crate::specs::Label::common_locked_of))]
pub fn locked(mut common: Common, lock: bool, a: usize) -> Common
    ensures { result ≡ common_locked_of common lock a }
{
    common.bl0 = common.bl0 || lock && in_label(a);
    common
}
