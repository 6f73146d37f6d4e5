//! Printed keystream.
use grain128::engines::*;
use sprout::engine::*;
use std::alloc::Global;
use std::process::Abort;
use std::test::Fail;
use stream::draws::cover;
use stream::engine::Engine;
use stream::refusal::*;

/// The order in which the bits of an octet are printed.
#[derive(Clone, Copy)]
enum Order {
    /// The most significant bit is the first, so that octets are reversed as they are read.
    Bits,
    /// The least significant bit is the first, as in this software.
    Octets,
}

/// A key, an IV and the keystream that they give, as hex digits.
#[derive(Clone, Copy)]
struct Vector {
    order: Order,
    key: &'static str,
    iv: &'static str,
    keystream: &'static str,
}

/// The vectors printed in Grain-128's public description.
const GRAIN128: [Vector; 4] = [
    Vector {
        order: Order::Bits,
        key: "00000000000000000000000000000000",
        iv: "000000000000000000000000",
        keystream: "0fd9deefeb6fad437bf43fce35849cfe",
    },
    Vector {
        order: Order::Bits,
        key: "0123456789abcdef123456789abcdef0",
        iv: "0123456789abcdef12345678",
        keystream: "db032aff3788498b57cb894fffb6bb96",
    },
    Vector {
        order: Order::Octets,
        key: "00000000000000000000000000000000",
        iv: "000000000000000000000000",
        keystream: "f09b7bf7d7f6b5c2de2ffc73ac21397f",
    },
    Vector {
        order: Order::Octets,
        key: "0123456789abcdef123456789abcdef0",
        iv: "0123456789abcdef12345678",
        keystream: "afb5babfa8de896b4b9c6acaf7c4fbfd",
    },
];

/// The vectors printed in Grain-128a's public description, for its mode without authentication.
const GRAIN128A: [Vector; 2] = [
    Vector {
        order: Order::Bits,
        key: "00000000000000000000000000000000",
        iv: "000000000000000000000000",
        keystream: "c0207f221660650b6a952ae26586136fa0904140c8621cfe8660c0dec0969e9436f4ace92cf1ebb7",
    },
    Vector {
        order: Order::Bits,
        key: "0123456789abcdef123456789abcdef0",
        iv: "0123456789abcdef12345678",
        keystream: "f88720c13f46e6a43c07eeed89161a4dd73bd6b8be8b6b116879714ebb630e0a4c12f0399412982c",
    },
];

/// Vectors of Sprout, whose public description prints none: an independent model that works bit by bit gave them.
const SPROUT: [Vector; 2] = [
    Vector {
        order: Order::Octets,
        key: "00000000000000000000",
        iv: "000000000000000000",
        keystream: "9a85b1f4ef266279eae9868f53a3be0c3753cfabbe77dbdcad988ef6e8bc106a",
    },
    Vector {
        order: Order::Octets,
        key: "00010203040506070809",
        iv: "101112131415161738",
        keystream: "ae660fa7f828e52e2c6a389b873cc51ea967462394f1c5605686d19e4e7b589d",
    },
];

/// The value of a hex digit.
fn digit(octet: u8) -> Result<u8, Fail> {
    let value = char::from(octet).to_digit(16).ok_or("no hex digit")?;
    Ok(value as u8)
}

/// The octets that hex digits show.
fn read(heap: Global, hex: &str, order: Order) -> Result<Vec<u8>, Fail> {
    let mut octets = Vec::new(heap);
    for pair in hex.as_bytes().chunks_exact(2) {
        let octet = digit(pair[0])? << 4 | digit(pair[1])?;
        octets.push(match order {
            Order::Bits => octet.reverse_bits(),
            Order::Octets => octet,
        })?;
    }
    Ok(octets)
}

/// The first octets of keystream.
fn keystream<E: Engine>(
    heap: Global,
    engine: &mut E,
    key: &[u8],
    iv: &[u8],
    length: usize,
) -> Result<Vec<u8>, Fail> {
    engine.load(key, iv)?;
    let mut octets = vec![in heap; 0u8; length]?;
    cover(engine, &mut octets);
    Ok(octets)
}

/// Holds what an engine gives against the vectors.
fn gives<E: Engine + Drop>(
    rt: &impl Abort,
    heap: Global,
    mut engine: E,
    vectors: &[Vector],
) -> Result<(), Fail> {
    for vector in vectors {
        let key = read(heap, vector.key, vector.order)?;
        let iv = read(heap, vector.iv, vector.order)?;
        let printed = read(heap, vector.keystream, vector.order)?;
        let given = keystream(heap, &mut engine, &key, &iv, printed.len())?;
        assert_eq!(rt; given, printed, "{}", vector.keystream);
    }
    Ok(())
}

#[test]
fn grain128_gives_its_printed_vectors(rt: HostRuntime) -> Result<(), Fail> {
    gives(&rt, rt.alloc(), Grain128::new(), &GRAIN128)?;
    gives(&rt, rt.alloc(), Grain128x32::new(), &GRAIN128)
}

#[test]
fn grain128a_gives_its_printed_vectors(rt: HostRuntime) -> Result<(), Fail> {
    gives(&rt, rt.alloc(), Grain128a::new(), &GRAIN128A)?;
    gives(&rt, rt.alloc(), Grain128ax32::new(), &GRAIN128A)
}

#[test]
fn sprout_gives_the_vectors_of_a_model(rt: HostRuntime) -> Result<(), Fail> {
    gives(&rt, rt.alloc(), Sprout::new(), &SPROUT)
}
