//! Laws of tallies, each an empty function whose clauses state it.

ghost use Rattle.nys_votes.specs.Contents.{DecideContents, DecidePayloads};
ghost use Rattle.nys_votes.specs.Meaning.{AttestsFound, AttestsStand, CountsAttests, CountsKept, CountsSeats, CountsVotes, VotesFound, VotesOnce, VotesStand};

/// Contents and payloads are called the same exactly where they are equal.
pub fn contents_law()
    ensures payloads { DecidePayloads }
    ensures contents { DecideContents }
{}

/// A count of seats is a count of different makers, whatever is kept of them.
pub fn seats_law<A: Drop>()
    // Of those that pass a test.
    ensures counts { CountsSeats A }
    // Of all that are kept.
    ensures kept { CountsKept A }
{}

/// What votes and attestations mean, as "at least n different makers".
pub fn tallies_law()
    ensures votes { CountsVotes }
    // What is found has the makers.
    ensures votes_stand { VotesStand }
    // Where some content has the makers, one is found.
    ensures votes_found { VotesFound }
    // Past half of the makers kept there is no other.
    ensures votes_once { VotesOnce }
    ensures attests { CountsAttests }
    ensures attests_stand { AttestsStand }
    ensures attests_found { AttestsFound }
{}
