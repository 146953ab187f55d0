//! Reads certificates.

ghost use Rattle.std.specs.Prelude.{◌↔◌, ◌+◌, ◌<◌, ◌^◌, length, IfErr, IfOk, IsTrue};
ghost use Rattle.linear_cert.specs.Right.{cert_tree};
ghost use Rattle.cert_lines.specs.Answers.{IsFaultOf, MustGive, MustRefuse};
ghost use Rattle.cert_lines.specs.Reading.{FailsIn, IsNextNode, IsPart, MayStand};
ghost use Rattle.cert_lines.specs.Text.{SpellsCertificate};

use crate::fault::CertFault;
use crate::node::{Node, node_in};
use linear_cert::Cert;
use sched_base::MAX_SPLITS;
use std::alloc::Global;
use text_forms::cut;

/// The certificate that the text spells, or the first bad line. It calls itself for the parts of a
/// split, at most `MAX_SPLITS` deep.
pub fn read_cert(alloc: Global, text: &[u8]) -> Result<Cert, CertFault>
    requires { length text.now < u32.MAX }
    ensures cert { IfOk result (λ cert. SpellsCertificate text.now (cert_tree cert)) }
    ensures fault { IfErr result (IsFaultOf text.now) }

    // A text that spells a certificate isn't refused, and one with a bad line is.
    ensures reads { MustGive text.now result }
    ensures refuses { MustRefuse text.now result }
{
    read_whole(alloc, text)
}

fn read_whole(alloc: Global, text: &[u8]) -> Result<Cert, CertFault>
    requires { length text.now < u32.MAX }
    ensures cert { IfOk result (λ cert. SpellsCertificate text.now (cert_tree cert)) }
    ensures fault { IfErr result (IsFaultOf text.now) }
{
    let mut rest = Rest {
        bytes: text,
        number: 1,
    };
    let cert = read_part(alloc, &mut rest, MAX_SPLITS)?;
    if rest.bytes.is_empty() {
        Ok(cert)
    } else {
        Err(CertFault::BadText(rest.number))
    }
}

// What is left of a text, and the number of its first line.
#[derive(Drop)]
struct Rest<'a> {
    bytes: &'a [u8],
    number: u32,
}

// The certificate that the rest begins with, where so many splits may stand one within another.
fn read_part(alloc: Global, rest: &mut Rest<'_>, room: u32) -> Result<Cert, CertFault>
    requires { rest.old.number + length rest.old.bytes.now < 2 ^ 32 }
    ensures part { IfOk result (λ cert. IsPart room rest.old.number rest.old.bytes.now
        (cert_tree cert) rest.new.bytes.now rest.new.number) }
    ensures fault { IfErr result (FailsIn room rest.old.number rest.old.bytes.now) }
{
    match next_node(alloc, rest, room)? {
        Node::Leaf(mults) => Ok(Cert::Leaf(mults)),
        Node::Split { var, at } => {
            let left = read_part(alloc, rest, room - 1)?;
            let right = read_part(alloc, rest, room - 1)?;
            Ok(Cert::Split {
                var,
                at,
                left: Box::new(alloc, left)?,
                right: Box::new(alloc, right)?,
            })
        }
    }
}

// The node of the next line, if it may stand there.
fn next_node(alloc: Global, rest: &mut Rest<'_>, room: u32) -> Result<Node, CertFault>
    requires { rest.old.number + length rest.old.bytes.now < 2 ^ 32 }
    ensures node { IfOk result (λ node. IsNextNode room rest.old.number rest.old.bytes.now
        node rest.new.bytes.now rest.new.number) }
    ensures fault { IfErr result (FailsIn room rest.old.number rest.old.bytes.now) }
{
    let number = rest.number;
    let (line, behind) = match cut(rest.bytes, b'\n') {
        Some(parts) => parts,
        None => return Err(CertFault::BadText(number)),
    };
    rest.bytes = behind;
    rest.number = number + 1;
    let node = match node_in(alloc, line)? {
        Some(node) => node,
        None => return Err(CertFault::BadText(number)),
    };
    if may_stand(&node, room) {
        Ok(node)
    } else {
        Err(CertFault::BadText(number))
    }
}

fn may_stand(node: &Node, room: u32) -> bool
    ensures { IsTrue result ↔ MayStand room node.now }
{
    match node {
        Node::Leaf(_) => true,
        Node::Split { .. } => room > 0,
    }
}
