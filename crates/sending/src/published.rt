// A.7 of the annex of the OSNMA Receiver Guidelines v1.3: the values of a DSM-PKR message. NB_DP 7 and the padding are ours.
ghost use Rattle.std.specs.Prelude.{◌≤◌};

use crate::{contents, pkr, print};
use dsms::dsm;
use layouts::dsm_pkr;
use std::io;
use std::io::Write;
use texts::{hexadecimal, put};
use transmitter::pkr::PkrValues;

const NODES: [u8; 256] = *b"7CBE05D9970CFC9E22D0A43A340EF557624453A2E821AADEAC989C405D78BA06\
    956380BAB0D2C939EC6208151040CCFFCF1FB7156178FD1255BA0AECAAA253F7\
    407B6C5DD4DF059FF8789474061301E1C34881DB7A367A913A3674300E21EAB1\
    24EF508389B7D446C3E2ECE8D459FBBD3239A794906F5B1F92469C640164FD87";

const KEY: [u8; 66] = *b"0303B2CE64BC207BDD8BC4DF859187FCB686320D63FFA091410FC158FBB77980EA";

const LEAF: [u8; 68] = *b"120303B2CE64BC207BDD8BC4DF859187FCB686320D63FFA091410FC158FBB77980EA";

const PADDING: [u8; 12] = *b"A1B2C3D4E5F6";

// The leaf that the reader shows, and whether it is the published one.
fn leaf<R: Print>(rt: &R, msg: &[u8]) -> io::Result<()> {
    let bytes = dsm_pkr::merkle_tree_leaf(msg);
    let mut out = [0u8; 160];
    print!(rt; "leaf ")?;
    match put::hexadecimal(&mut out, 0, bytes) {
        Err(e) => print!(rt; "refused {}", e.number())?,
        Ok(n) => io::writer(rt).write_all(contents::first(&out, n))?,
    }
    let is_published = hexadecimal::spells(&LEAF, bytes);
    print::held(rt, is_published, ", as published\n", ", not as published\n")?;
    Ok(())
}

// The message sent, and the leaf of what the collector shows.
fn sent<R: Print>(rt: &R, nodes: &[u8], key: &[u8], padding: &[u8]) -> io::Result<()> {
    let v = PkrValues {
        nb_dp: 7,
        mid: 1,
        npkt: 1,
        npkid: 2,
    };
    let mut zeros = [0u8; 208];
    let lent: &mut [u8] = &mut zeros;
    print!(rt; "published PKR id 12")?;
    let collector = pkr::sent(rt, lent, 12, v, nodes, key, padding)?;
    leaf(rt, dsm::view(collector, lent))?;
    Ok(())
}

// The bytes that a text spells; zeros where it spells none, which the line then shows to be others.
fn spelt<const N: usize>(text: &[u8]) -> [u8; N]
    requires { N ≤ 208 }
{
    let mut bytes = [0u8; N];
    let _ = hexadecimal::read(&mut bytes, 0, text);
    bytes
}

pub(crate) fn all<R: Print>(rt: &R) -> io::Result<()> {
    let nodes: [u8; 128] = spelt(&NODES);
    let key: [u8; 33] = spelt(&KEY);
    let padding: [u8; 6] = spelt(&PADDING);
    sent(rt, &nodes, &key, &padding)
}
