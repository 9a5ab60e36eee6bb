//! The words in which an image lies in its node.
ghost use Rattle.std.specs.Prelude.{◌≡◌, ◌+◌, ◌*◌, ◌<◌, ◌≤◌, true, length};
ghost use Rattle.plcr_base.specs.Numbers.{u64_in};
ghost use Rattle.plcr_base.specs.declared.limits.TheConstants.{IMAGE_NAME_BYTES};
ghost use Rattle.plcr_base.specs.Limits.{IsImageName};
ghost use Rattle.plcr_machine.specs.Nodes.{is_free};
ghost use Rattle.plcr_nodes.specs.Names.{words_of, payload_word};
ghost use Rattle.plcr_imagelist.specs.inner.Making.{stores_after};

use plcr_base::{read_padded_u64, read_u64};
use plcr_nodes::{Nodes, Owner};

/// How many words a name of so many bytes takes.
pub(crate) fn words_of(len: usize) -> usize
    requires { len ≤ IMAGE_NAME_BYTES }
    ensures { result ≡ words_of len }
{
    (len + 7) / 8
}

/// One payload word of an image: its header, the length of its name, and then the words of the
/// name.
pub(crate) fn payload(header: u64, name: &[u8], word: usize) -> u64
    requires { word < 2 + words_of (length name.now) }
    ensures { result ≡ payload_word header name.now word }
{
    match word {
        0 => header,
        1 => name.len() as u64,
        _ => name_word(name, 8 * (word - 2)),
    }
}

// The word of a name from one of its bytes on, with zeros behind its last byte.
fn name_word(name: &[u8], at: usize) -> u64
    requires { at ≤ length name.now }
    ensures { result ≡ u64_in name.now at }
{
    if name.len() - at < 8 {
        read_padded_u64(name, at)
    } else {
        read_u64(name, at)
    }
}

/// Stores an image in a free node, a word at a time, and the end as its link.
pub(crate) fn store_image(owner: &mut Owner, nodes: &Nodes, node: u32, header: u64, name: &[u8])
    requires table { owner.old.table ≡ nodes.now }
    requires node { (0 < node) × (node ≤ owner.old.nodes) }
    requires free { is_free owner.old.passes node owner.old.history ≡ true }
    requires short { IsImageName name.now }
    ensures { owner.new ≡ record owner.old {
      filled =
          stores_after node header name.now (3 + words_of (length name.now)) owner.old.filled;
    } }
{
    owner.fill(nodes, node, 0, header);
    owner.fill(nodes, node, 1, name.len() as u64);
    for word in 0..words_of(name.len()) {
        owner.fill(nodes, node, word as u32 + 2, name_word(name, 8 * word));
    }
    owner.end_link(nodes, node);
}
