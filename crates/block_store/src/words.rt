//! The words of payloads, owners and shapes: each is written and read here.

ghost use Rattle.std.specs.Prelude.{◌≡◌, ◌≢◌, IfSome, IfNone, ℕ, Some};
ghost use Rattle.block_store.specs.Payloads.{IsPayload, payload_code, payload_of, payload_target, target, number_word, reference_word};
ghost use Rattle.block_store.specs.Owners.{IsOwner, owner_code, owner_of};
ghost use Rattle.block_store.specs.WideOwners.{IsWide, wide_code, wide_of};
ghost use Rattle.block_store.specs.Shapes.{IsShape, shape_code, shape_of};
ghost use Rattle.block_store.specs.declared.Payload.{Payload};
ghost use Rattle.block_store.specs.declared.Owner.{Owner};
ghost use Rattle.block_store.specs.declared.WideOwner.{WideOwner};
ghost use Rattle.block_store.specs.declared.Shape.{Shape};

use crate::{Owner, Payload, Shape, WideOwner};

/// The word of a payload.
#[tactic(auto, unfolding(crate::specs::Payloads::number_word, crate::specs::Payloads::reference_word))]
pub fn payload_word(p: Payload) -> u64
    requires { IsPayload p }
    ensures { result ≡ payload_code p }
{
    match p {
        Payload::Nil => 0,
        Payload::Int(number) => 2 * number + 1,
        Payload::Block(block) => 2 * block as u64,
    }
}

/// The payload that a word is; `None` where it is no word of a payload.
#[tactic(auto, using(crate::proofs::PayloadWords::unread), unfolding(crate::specs::Payloads::payload_of, crate::specs::Payloads::number_word, crate::specs::Payloads::reference_word, crate::specs::Payloads::target))]
pub fn read_payload(w: u64) -> Option<Payload>
    ensures word { result ≡ payload_of w }
    ensures found { IfSome result (λ p. IsPayload p × (payload_code p ≡ w)
        × (payload_target p ≡ target w)) }
    ensures none { IfNone result ((p : Payload) → IsPayload p → payload_code p ≢ w) }
{
    let half = w / 2;
    if w == 0 {
        Some(Payload::Nil)
    } else if w % 2 == 1 && half < 1 << 62 {
        Some(Payload::Int(half))
    } else if w % 2 == 0 && half <= 65_535 {
        Some(Payload::Block(half as u32))
    } else {
        None
    }
}

/// The word of an owner.
#[tactic(auto, unfolding(crate::specs::Owners::owner_word))]
pub fn owner_word(o: Owner) -> u64
    requires { IsOwner o }
    ensures { result ≡ owner_code o }
{
    ((o.thread as u64) << 40) + ((o.serial as u64) << 16) + o.ordinal as u64
}

/// The owner that a word is; `None` where it is no word of an owner.
#[tactic(auto, using(crate::proofs::OwnerWords::unread), unfolding(crate::specs::Owners::owner_of, crate::specs::Owners::owner_parts, crate::specs::Owners::owner_word))]
pub fn read_owner(w: u64) -> Option<Owner>
    ensures word { result ≡ owner_of w }
    ensures found { IfSome result (λ o. IsOwner o × (owner_code o ≡ w)) }
    ensures none { IfNone result ((o : Owner) → IsOwner o → owner_code o ≢ w) }
{
    let thread = w >> 40;
    let serial = (w >> 16) % (1 << 24);
    let ordinal = w % (1 << 16);
    if thread <= 16 && serial <= 131_072 && ordinal <= 1023 {
        Some(Owner {
            thread: thread as u32,
            serial: serial as u32,
            ordinal: ordinal as u32,
        })
    } else {
        None
    }
}

/// The word of an owner whose serial is below 2^43. Where it is below 2^24, this is the word of
/// `owner_word`.
#[tactic(auto, unfolding(crate::specs::WideOwners::wide_word))]
pub fn wide_word(o: WideOwner) -> u64
    requires { IsWide o }
    ensures { result ≡ wide_code o }
{
    let (high, low) = (o.serial / (1 << 24), o.serial % (1 << 24));
    (high << 45) + ((o.thread as u64) << 40) + (low << 16) + o.ordinal as u64
}

/// The owner that a word is, of a serial below 2^43; `None` where it is no word of an owner. What
/// `read_owner` reads is read as the same owner.
#[tactic(auto, using(crate::proofs::WideWords::unread), unfolding(crate::specs::WideOwners::wide_of, crate::specs::WideOwners::wide_parts, crate::specs::WideOwners::wide_word))]
pub fn read_wide(w: u64) -> Option<WideOwner>
    ensures word { result ≡ wide_of w }
    ensures found { IfSome result (λ o. IsWide o × (wide_code o ≡ w)) }
    ensures none { IfNone result ((o : WideOwner) → IsWide o → wide_code o ≢ w) }
{
    let thread = (w >> 40) % (1 << 5);
    let serial = (w >> 45) * (1 << 24) + (w >> 16) % (1 << 24);
    let ordinal = w % (1 << 16);
    if thread <= 16 && ordinal <= 1023 {
        Some(WideOwner {
            thread: thread as u32,
            serial,
            ordinal: ordinal as u32,
        })
    } else {
        None
    }
}

/// The word of a shape.
#[tactic(auto, unfolding(crate::specs::Shapes::record_word, crate::specs::Shapes::array_word))]
pub fn shape_word(s: Shape) -> u64
    requires { IsShape s }
    ensures { result ≡ shape_code s }
{
    match s {
        Shape::List(fields) => 2 * fields as u64,
        Shape::Tree(elements) => 2 * elements as u64 + 1,
    }
}

/// The shape that a word is; `None` where it is no word of a shape.
#[tactic(auto, using(crate::proofs::ShapeWords::unread), unfolding(crate::specs::Shapes::shape_of, crate::specs::Shapes::record_word, crate::specs::Shapes::array_word))]
pub fn read_shape(w: u64) -> Option<Shape>
    ensures word { result ≡ shape_of w }
    ensures found { IfSome result (λ s. IsShape s × (shape_code s ≡ w)) }
    ensures none { IfNone result ((s : Shape) → IsShape s → shape_code s ≢ w) }
{
    let half = w / 2;
    if half > 65_535 {
        None
    } else if w % 2 == 0 {
        Some(Shape::List(half as u32))
    } else {
        Some(Shape::Tree(half as u32))
    }
}
