//! What a table of links asks of its nodes.
//!
//! Tested in `test_owned` and `tools/dev/try-commands`.

ghost use Rattle.std.specs.Prelude.{◌≡◌, ◌+◌, ◌<◌, ◌≤◌, ◌↔◌, [], ◌∷◌, length, IsTrue, false, IfOk, IfErr, OnOk, OnErr, IfSome, IfNone, Some, None};
ghost use Rattle.std.specs.Int.{w64, to_be_bytes};
ghost use Rattle.std.specs.Option.{option_map};
ghost use Rattle.spec_map.specs.Map.{lookup, between, Rises};
ghost use Rattle.spec_map.specs.Near.{below_of};
ghost use Rattle.node_base.specs.Form.{Fits, few_in, next_form, smaller_form};
ghost use Rattle.node_base.specs.declared.base_node.NodeType.TheVariants.{N4, N48, N256};
ghost use Rattle.node_rows.specs.Spare.{IsSpareFor};
ghost use Rattle.node_table.specs.Children.{children_left, MayYield};
ghost use Rattle.tree_links.specs.LinkNode.{MayLink, seen, looked_at, with_link, without_link, IsMet};
ghost use Rattle.tree_links.specs.Places.{as_links};
ghost use Rattle.tree_links.specs.declared.link.Link.TheVariants.{Payload};

use crate::link::{Link, LinkMeeting, LinkRef};
use crate::place::Place;
use node_base::base_node::BaseNode;
use node_rows::spare::Spare;
use spec_map::error::OOMError;
use spec_node::child::ChildIter;
use std::alloc::Global;

/// A node whose children may be pairs. Below seven bytes it is a leaf, whose children are payloads. Below fewer it is
/// an inner node, whose children are slots and pairs.
pub trait LinkedNode<P>: Drop + Sized {
    ghost use Rattle.tree_links.specs.LinkNode.{LinkNode};

    ghost node: { Self → LinkNode P };

    /// The root of an empty tree, which has room for a link under each byte; a refusal only for lack of memory.
    fn root(alloc: Global) -> Result<Self, OOMError>
        ensures { IfOk result (λ n. node n ≡ record { form = N256; prefix = []; links = [] }) };

    /// An inner node of the smallest form, without links. Takes no memory.
    fn empty_inner(prefix: &[u8]) -> Self
        requires { length prefix.now < 7 }
        ensures { node result ≡ record { form = N4; prefix = prefix.now; links = [] } };

    /// A leaf of the smallest form with one payload. Takes no memory.
    fn leaf_of(prefix: &[u8], byte: u8, payload: P) -> Self
        requires { length prefix.now ≡ 7 }
        ensures { node result
            ≡ record { form = N4; prefix = prefix.now; links = (byte, Payload payload) ∷ [] } };

    /// What all forms have.
    fn base(&self) -> &BaseNode
        ensures prefix { result.now.prefix ≡ (node self.now).prefix }
        ensures count { result.now.count ≡ length (node self.now).links }
        ensures form { result.now.form ≡ (node self.now).form }
        ensures within { Fits (node self.now).form (length (node self.now).links) }
        ensures ascending { Rises 0 256 (node self.now).links };

    /// Whether there is no room for one link more.
    fn is_full(&self) -> bool
        ensures full { IsTrue result
            → Fits (node self.now).form (length (node self.now).links + 1) → ⊥ }
        ensures room { result ≡ false
            → Fits (node self.now).form (length (node self.now).links + 1) };

    /// Whether the node has few links for its form, or none.
    fn is_due(&self) -> bool
        ensures { IsTrue result
            ↔ (length (node self.now).links ≤ few_in (node self.now).form) };

    /// Whether the node is a leaf.
    fn is_leaf(&self) -> bool
        ensures leaf { IsTrue result → length (node self.now).prefix ≡ 7 }
        ensures inner { result ≡ false → length (node self.now).prefix < 7 };

    /// What a key meets here, whose bytes are those of the word, most significant first.
    fn meet<'a>(&'a self, key: &[u8; 8], word: u64) -> LinkMeeting<'a, P>
        requires { to_be_bytes w64 word ≡ key.now }
        ensures { IsMet key.now (node self.now) result };

    /// What is under a byte, or `None`.
    fn get_link<'a>(&'a self, byte: u8) -> Option<LinkRef<'a, P>>
        ensures { seen result ≡ lookup (node self.now).links byte };

    /// The first link whose byte isn't below `from`, and its byte; `None` from 256 on.
    fn first_from<'a>(&'a self, from: usize) -> Option<(u8, LinkRef<'a, P>)>
        ensures none { IfNone result (between (node self.now).links from 256 ≡ []) }
        ensures some { IfSome result (λ found. between (node self.now).links from 256
            ≡ (found.0, looked_at found.1) ∷ between (node self.now).links (found.0 + 1) 256) }
        ensures order { IfSome result (λ found. from ≤ found.0) };

    /// The last link whose byte is below `to`, and its byte; `None` at 0.
    fn last_below<'a>(&'a self, to: usize) -> Option<(u8, LinkRef<'a, P>)>
        requires { to ≤ 256 }
        ensures { option_map (λ found. (found.0, looked_at found.1)) result
            ≡ below_of (node self.now).links to };

    /// The links with `from <= byte < to`, ascending: payloads, or what an inner node has in the places of children. It
    /// keeps its place in the node, which is searched once.
    fn links_between<'a>(&'a self, from: usize, to: usize) -> ChildIter<'a, P, Place<P>>
        requires { to ≤ 256 }
        ensures links { as_links (children_left result) ≡ between (node self.now).links from to }
        ensures kind { MayYield (node self.now).prefix result };

    /// The spare row for one link more, which an inner node for forty-eight may need, and one for sixteen once it has
    /// grown. A refusal only for lack of memory.
    fn spare(&self, alloc: Global) -> Result<Spare<Place<P>>, OOMError>
        ensures { IfOk result (λ spare. length (node self.now).prefix < 7
            → ((node self.now).form ≡ N256 → ⊥) → length (node self.now).links < 48
            → IsSpareFor (length (node self.now).links) spare) };

    /// Adds a link of the node's kind under a byte that has none, in a node that is not full. Takes no memory but the
    /// spare row, which an inner node for forty-eight may need.
    fn insert(&mut self, byte: u8, link: Link<P>, spare: Spare<Place<P>>)
        requires absent { lookup (node self.old).links byte ≡ None }
        requires room { Fits (node self.old).form (length (node self.old).links + 1) }
        requires kind { MayLink (node self.old).prefix link }
        requires spare { (node self.old).form ≡ N48 → length (node self.old).prefix < 7
            → IsSpareFor (length (node self.old).links) spare }
        ensures { node self.new ≡ with_link (node self.old) byte link };

    /// Replaces the link under a byte by another of the node's kind, and returns the previous one. If there is none,
    /// `Err` returns the new link.
    fn exchange(&mut self, byte: u8, link: Link<P>) -> Result<Link<P>, Link<P>>
        requires { MayLink (node self.old).prefix link }
        ensures before { IfOk result (λ c. lookup (node self.old).links byte ≡ Some c) }
        ensures after { OnOk result (node self.new ≡ with_link (node self.old) byte link) }
        ensures absent { OnErr result (lookup (node self.old).links byte ≡ None) }
        ensures back { IfErr result (λ c. c ≡ link) }
        ensures same { OnErr result (node self.new ≡ node self.old) };

    /// Takes out the link under a byte, if there is one, and returns it.
    fn take(&mut self, byte: u8) -> Option<Link<P>>
        ensures before { result ≡ lookup (node self.old).links byte }
        ensures after { node self.new ≡ without_link (node self.old) byte };

    /// Sets the payload under a byte of a leaf, where there is one or room for one more, and returns the previous one.
    /// Otherwise `Err` returns the new payload.
    fn set_payload(&mut self, byte: u8, payload: P) -> Result<Option<P>, P>
        requires leaf { length (node self.old).prefix ≡ 7 }
        ensures before { IfOk result (λ before.
            lookup (node self.old).links byte ≡ option_map (λ v. Payload v) before) }
        ensures room { IfOk result (λ before. before ≡ None
            → Fits (node self.old).form (length (node self.old).links + 1)) }
        ensures after { OnOk result
            (node self.new ≡ with_link (node self.old) byte (Payload payload)) }
        ensures absent { OnErr result (lookup (node self.old).links byte ≡ None) }
        ensures full { OnErr result
            (Fits (node self.old).form (length (node self.old).links + 1) → ⊥) }
        ensures back { IfErr result (λ back. back ≡ payload) }
        ensures same { OnErr result (node self.new ≡ node self.old) };

    /// Takes out the payload under a byte of a leaf, if there is one, and returns it.
    fn take_payload(&mut self, byte: u8) -> Option<P>
        requires leaf { length (node self.old).prefix ≡ 7 }
        ensures before { option_map (λ v. Payload v) result ≡ lookup (node self.old).links byte }
        ensures after { node self.new ≡ without_link (node self.old) byte };

    /// Becomes the next form with the same prefix and links; the largest stays.
    ///
    /// All memory is taken before the first change, and refused only for lack of it.
    fn grow(&mut self, alloc: Global) -> Result<(), OOMError>
        ensures ok { OnOk result
            (node self.new ≡ record (node self.old) { form = next_form (node self.old).form }) }
        ensures room { OnOk result
            (Fits (node self.new).form (length (node self.new).links + 1)) }
        ensures err { OnErr result (node self.new ≡ node self.old) };

    /// Becomes the next smaller form with the same prefix and links, for which there are few enough; the smallest
    /// stays.
    ///
    /// All memory is taken before the first change, and refused only for lack of it.
    fn shrink(&mut self, alloc: Global) -> Result<(), OOMError>
        requires { Fits (smaller_form (node self.old).form) (length (node self.old).links) }
        ensures ok { OnOk result
            (node self.new ≡ record (node self.old) { form = smaller_form (node self.old).form }) }
        ensures err { OnErr result (node self.new ≡ node self.old) };
}
