//! Tallies: a maker counts once, and enough makers make a certificate.

ghost use Rattle.std.specs.Prelude.{◌≡◌, ◌<◌, IfSome};

use nys_bytes::{NoMemory, Payload, PayloadFault};
use nys_credit::CreditBank;
use nys_deliver::DeliverSlot;
use nys_order::OrderSlot;
use nys_seats::Seats;
use nys_stmt::{Body, Content, FilledKind, Statement, TagList};
use std::alloc::Global;
use std::test::Fail;

#[test]
fn the_first_of_a_maker_stays(rt: HostRuntime) -> Result<(), Fail> {
    let mut seats = Seats::new(rt.alloc())?;
    // (maker, what it says, whether it is kept)
    let cases = [(31, 7u32, true), (0, 8, true), (31, 9, false)];
    for (maker, what, kept) in cases {
        assert_eq!(rt; seats.keep(maker, what), kept, "{maker} says {what}");
    }
    assert_eq!(rt; (seats.count(), seats.makers().mask()), (2, 0x8000_0001));
    assert_eq!(rt; *seats.get(31), Some(7));
    seats.clear(31);
    assert_eq!(rt; (seats.count(), *seats.get(31)), (1, None));
    Ok(())
}

/// An input of this number.
fn input(alloc: Global, number: i64) -> Result<Content, PayloadFault> {
    let payload = Payload::new(alloc, &[number])?;
    Ok(Content::External { payload })
}

/// No orders yet of this content for slot 2 of host 1.
fn no_orders(alloc: Global, content: Content) -> Result<OrderSlot, NoMemory> {
    let body = Body::Filled {
        kind: FilledKind::Order,
        h: 1,
        slot: 2,
        content,
    };
    OrderSlot::new(alloc, Statement { epoch: 0, body })
}

#[test]
fn an_order_of_each_maker_is_kept_once(rt: HostRuntime) -> Result<(), Fail> {
    let mut orders = no_orders(rt.alloc(), input(rt.alloc(), 5)?)?;
    assert_eq!(rt; orders.vote(31, TagList::new(rt.alloc())), Ok(true));
    // (maker, whether its order is kept)
    for (maker, kept) in [(0, true), (31, false), (2, true), (0, false)] {
        assert_eq!(rt;
            orders.collect(maker, TagList::new(rt.alloc())),
            Ok(kept),
            "{maker}"
        );
    }
    assert_eq!(rt; (orders.count(), orders.makers().mask()), (3, 0x8000_0005));
    Ok(())
}

/// Keeps the orders of makers 4 and 2.
fn ordered(alloc: Global, orders: &mut OrderSlot) -> Result<(), NoMemory> {
    orders.collect(4, TagList::new(alloc))?;
    orders.collect(2, TagList::new(alloc))?;
    Ok(())
}

#[test]
fn a_certificate_has_all_its_makers_rising(rt: HostRuntime) -> Result<(), Fail> {
    let mut orders = no_orders(rt.alloc(), input(rt.alloc(), 5)?)?;
    ordered(rt.alloc(), &mut orders)?;
    assert!(rt; orders.certificate(rt.alloc(), 3)?.is_none());
    let makers = orders
        .certificate(rt.alloc(), 2)?
        .ok_or("two are enough")?
        .makers;
    assert_eq!(rt; makers.len(), 2);
    assert_eq!(rt; (makers.get(0).maker, makers.get(1).maker), (2, 4));
    Ok(())
}

/// Notes a vote of a maker for this content in slot 2 of host 1.
fn note(
    alloc: Global,
    votes: &mut DeliverSlot,
    maker: u32,
    content: Content,
) -> Result<bool, NoMemory>
    requires maker { maker < 32 }
    requires about { IfSome votes.old.about (λ of. of ≡ record { epoch = 0; h = 1; slot = 2 }) }
    ensures about { IfSome votes.new.about (λ of. of ≡ record { epoch = 0; h = 1; slot = 2 }) }
{
    let body = Body::Filled {
        kind: FilledKind::Deliver,
        h: 1,
        slot: 2,
        content,
    };
    votes.note(maker, &Statement { epoch: 0, body }, TagList::new(alloc))
}

#[test]
fn the_first_vote_of_a_maker_is_kept(rt: HostRuntime) -> Result<(), Fail> {
    let mut votes = DeliverSlot::new(rt.alloc())?;
    let (five, six) = (input(rt.alloc(), 5)?, input(rt.alloc(), 6)?);
    assert_eq!(rt; note(rt.alloc(), &mut votes, 3, five), Ok(true));
    assert_eq!(rt; note(rt.alloc(), &mut votes, 3, six), Ok(false));
    assert_eq!(rt; votes.kept(), 1);
    Ok(())
}

/// The votes of makers 31 and 3 for the content, and of maker 0 for the other.
fn voted(alloc: Global, content: &Content, other: Content) -> Result<DeliverSlot, NoMemory> {
    let mut votes = DeliverSlot::new(alloc)?;
    note(alloc, &mut votes, 31, content.copy(alloc)?)?;
    note(alloc, &mut votes, 0, other)?;
    note(alloc, &mut votes, 3, content.copy(alloc)?)?;
    Ok(votes)
}

fn is(found: Option<&Content>, content: &Content) -> bool {
    match found {
        Some(other) => other.equals(content),
        None => false,
    }
}

#[test]
fn two_votes_of_three_certify_and_back(rt: HostRuntime) -> Result<(), Fail> {
    let five = input(rt.alloc(), 5)?;
    let votes = voted(rt.alloc(), &five, input(rt.alloc(), 6)?)?;
    assert_eq!(rt; (votes.kept(), votes.count(&five)), (3, 2));
    assert!(rt; votes.certified(3).is_none());
    assert!(rt; is(votes.certified(2), &five));
    assert!(rt; is(votes.backed(1), &five));
    Ok(())
}

#[test]
fn a_record_of_votes_has_their_makers_rising(rt: HostRuntime) -> Result<(), Fail> {
    let five = input(rt.alloc(), 5)?;
    let votes = voted(rt.alloc(), &five, input(rt.alloc(), 6)?)?;
    let makers = votes
        .votes(rt.alloc(), &five)?
        .ok_or("two voted for it")?
        .makers;
    assert_eq!(rt; makers.len(), 2);
    assert_eq!(rt; (makers.get(0).maker, makers.get(1).maker), (3, 31));
    Ok(())
}

#[test]
fn a_head_is_overdue_after_its_credit(rt: HostRuntime) -> Result<(), Fail> {
    let mut bank = CreditBank::new(rt.alloc(), 4)?;
    bank.head(9, 3);
    bank.head(9, 0);
    bank.head(31, 5);
    // (slot, the mask of the overdue links)
    for (slot, mask) in [(6, 0), (7, 0x200), (9, 0x8000_0200)] {
        assert_eq!(rt; bank.overdue(slot).mask(), mask, "slot {slot}");
    }
    assert_eq!(rt; (bank.since(9), bank.since(0)), (Some(3), None));
    Ok(())
}
