//! States the bounds of a label's types as clauses: each number fits its width, and identifiers and
//! names are bytes. It does nothing at run time.
ghost use Rattle.std.specs.Prelude.{◌≡◌, ◌^◌, ◌<◌, length};
ghost use Rattle.nvd_words.specs.Bytes.{AreBytes};
ghost use Rattle.label_codec.specs.Writable.{IsSound, IsWritable};

use crate::label::Label;

/// A label can be written if its name has no zero byte and its sizes aren't odd.
pub(crate) fn know_writable(label: &Label)
    requires { IsSound label.now }
    ensures { IsWritable label.now }
{
    know_numbers_of_set(label);
    know_numbers_of_part(label);
    know_sixteen(label.uuid.as_bytes());
    know_sixteen(label.kind.as_bytes());
    know_sixteen(label.abstraction.as_bytes());
    know_field(&label.name.field());
}

fn know_numbers_of_set(label: &Label)
    ensures flags { label.now.flags < 2 ^ 32 }
    ensures count { label.now.count < 2 ^ 16 }
    ensures position { label.now.position < 2 ^ 16 }
    ensures cookie { label.now.cookie < 2 ^ 64 }
    ensures lba { label.now.lba < 2 ^ 64 }
{
    prove!(label.flags <= u32::MAX);
    prove!(label.count <= u16::MAX);
    prove!(label.position <= u16::MAX);
    prove!(label.cookie <= u64::MAX);
    prove!(label.lba <= u64::MAX);
}

fn know_numbers_of_part(label: &Label)
    ensures dpa { label.now.dpa < 2 ^ 64 }
    ensures raw { label.now.raw < 2 ^ 64 }
    ensures slot { label.now.slot < 2 ^ 32 }
    ensures align { label.now.align < 2 ^ 8 }
    ensures spa_cookie { label.now.spa_cookie < 2 ^ 64 }
{
    prove!(label.dpa <= u64::MAX);
    prove!(label.raw <= u64::MAX);
    prove!(label.slot <= u32::MAX);
    prove!(label.align <= u8::MAX);
    prove!(label.spa_cookie <= u64::MAX);
}

fn know_sixteen(bytes: &[u8; 16])
    ensures len { length bytes.now ≡ 16 }
    ensures fit { AreBytes bytes.now }
{
    prove!(bytes[0] <= u8::MAX);
}

fn know_field(bytes: &[u8; 64])
    ensures len { length bytes.now ≡ 64 }
    ensures fit { AreBytes bytes.now }
{
    prove!(bytes[0] <= u8::MAX);
}
