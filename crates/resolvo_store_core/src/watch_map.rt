//! For each literal the clauses that watch it, in a linked list, and walks over them.
//! The map keeps the first link of each literal's list, and the link after each one. So a clause is
//! inserted at the front, or removed at a cursor, in constant time. A clause has two links, whose
//! numbers are twice its own and one more, so no link keeps its clause. The links of a clause that
//! watches nothing are marked as in no list.
//! The watched literals of each clause are kept beside the clauses, in a list that the calls take.
//! The map and that list agree (`IsWatched`): each clause is once in the list of each of its two
//! literals, and in no other. A clause that begins to watch a literal is put at the front of its
//! list. A walk is a cursor that the caller advances.
ghost use Rattle.std.specs.Prelude.{◌≡◌, ◌≤◌, ℕ, length};
ghost use Rattle.resolvo_store_core.specs.Links.{AreLinked, link_of, clause_of};

use crate::literal::Literal;
use crate::watched_literals::{Watch, WatchedLiterals};
use crate::watched_pair::WatchedPair;
use resolvo_pool_core::id::{ClauseId, DenseIndex};
use resolvo_pool_core::want::{R, Want};
use std::alloc::Global;

/// For each literal the clauses that watch it. Both tables have one more than a link's number, or 0
/// for none.
#[derive(Drop)]
pub struct WatchMap {
    /// The first link of each literal's list.
    firsts: Vec<u32>,
    /// The link after each one, or `UNLINKED` of one in no list.
    nexts: Vec<u32>,
    ghost linked: { AreLinked firsts.items nexts.items },
    ghost few: { length nexts.items ≤ 4294967294 },
}

/// Marks a link that was in no list yet.
const UNLINKED: u32 = u32::MAX;

/// How many links are made beyond those that are asked for.
const MORE_LINKS: usize = 256;

/// A map has no more links than this.
const MOST_LINKS: usize = 4_294_967_294;

/// So many clauses have links at most.
const MOST_CLAUSES: usize = 2_147_483_647;

/// A place in the list of a literal's clauses: the link there, and the one before it.
#[derive(Clone, Copy, Debug)]
pub struct WatchMapCursor {
    pub literal: Literal,
    pub place: usize,
    pub current: Option<u32>,
    pub before: Option<u32>,
}

impl WatchMap {
    ghost use Rattle.std.specs.Prelude.{◌≡◌, ℕ, ◌<◌, ◌≤◌, ◌+◌, ◌*◌, ◌++◌, ◌∷◌, [], List, Option, length, slice_get, true, false, Some, drop, OnOk, OnErr, IfOk, IsOk, IsOkUnless, vec_capacity};
    ghost use Rattle.resolvo_pool_core.specs.declared.want.Want.TheVariants.{Memory};
    ghost use Rattle.resolvo_pool_core.specs.declared.id.ClauseId.{ClauseId};
    ghost use Rattle.resolvo_store_core.specs.Signed.{Signed, same_literal};
    ghost use Rattle.resolvo_store_core.specs.declared.watched_literals.WatchedLiterals.{WatchedLiterals};
    ghost use Rattle.resolvo_store_core.specs.Links.{clause_of, IsPlaced};
    ghost use Rattle.resolvo_store_core.specs.Watches.{HasPlace, HasRoom, IsReadyFor, links, watchers, watched_count, IsFreeLink, KeepsRoom, HasRoomFor, IsAt, IsWatched, StartsIn, PutsFirst, TakesOut, SameLists, SameLinks};
    ghost use Rattle.resolvo_store_core.specs.Walk.{pairs_after, lists_after, first_target};

    /// A map in which no clause watches a literal.
    pub fn new(alloc: Global) -> WatchMap
        ensures empty { (l : Signed) → watchers result l ≡ [] }
        ensures fits { IsWatched [] (watchers result) }
    {
        WatchMap {
            firsts: Vec::new(alloc),
            nexts: Vec::new(alloc),
        }
    }

    /// How many literals are watched by some clause.
    pub fn len(&self) -> usize
        ensures { result ≡ watched_count self.now }
    {
        self.firsts.iter().filter(|first| **first != 0).count()
    }

    /// Lets a new clause watch two different literals. It is put at the front of both lists. One
    /// that watches already is refused as for want of memory.
    pub fn start_watching(&mut self, watched: WatchedLiterals, clause: ClauseId) -> R<()>
        requires { same_literal watched.first watched.second ≡ false }
        ensures started { OnOk result (StartsIn clause watched (watchers self.old)
            (watchers self.new)) }
        ensures fits { OnOk result
            ((pairs : List (Option WatchedLiterals))
            → IsWatched pairs (watchers self.old)
            → clause.0 ≡ length pairs
            → IsWatched (pairs ++ Some watched ∷ []) (watchers self.new)) }
        ensures err { OnErr result (SameLists (watchers self.old) (watchers self.new)) }
        ensures refusal { IsOkUnless result Memory }
    {
        if self.is_ready(&watched, clause) {
            self.start_ready(watched, clause);
            return Ok(());
        }
        self.start_new(watched, clause)
    }

    /// Whether both literals have their lists, and the clause its two links, which are in no list.
    #[inline(always)]
    fn is_ready(&self, watched: &WatchedLiterals, clause: ClauseId) -> bool
        ensures { result ≡ true → IsReadyFor self.now watched.now clause }
    {
        let link = clause.to_index() * 2;
        if link + 1 >= self.nexts.len() {
            return false;
        }
        if watched.first.to_index() >= self.firsts.len() {
            return false;
        }
        if watched.second.to_index() >= self.firsts.len() {
            return false;
        }
        self.is_unlinked(link) && self.is_unlinked(link + 1)
    }

    /// Lets a new clause watch two different literals, where their lists and its links are made. It is
    /// put at the front of both lists.
    #[inline(always)]
    pub fn start_ready(&mut self, watched: WatchedLiterals, clause: ClauseId)
        requires differ { same_literal watched.first watched.second ≡ false }
        requires ready { IsReadyFor self.old watched clause }
        ensures started { StartsIn clause watched (watchers self.old) (watchers self.new) }
        ensures room { KeepsRoom self.old self.new }
    {
        let link = clause.0 * 2;
        self.link_first(watched.first, link);
        self.link_first(watched.second, link + 1);
    }

    /// The same where the lists or the links may be yet to be made.
    #[inline(never)]
    fn start_new(&mut self, watched: WatchedLiterals, clause: ClauseId) -> R<()>
        requires { same_literal watched.first watched.second ≡ false }
        ensures started { OnOk result (StartsIn clause watched (watchers self.old)
            (watchers self.new)) }
        ensures err { OnErr result (SameLists (watchers self.old) (watchers self.new)) }
        ensures refusal { IsOkUnless result Memory }
    {
        self.reserve(watched.first)?;
        self.reserve(watched.second)?;
        self.add_links(clause)?;
        self.start_ready(watched, clause);
        Ok(())
    }

    /// A cursor at the start of the clauses that watch a literal.
    pub fn cursor(&self, literal: Literal) -> WatchMapCursor
        ensures literal { result.literal ≡ literal }
        ensures place { result.place ≡ 0 }
        ensures at { IsAt self.now result }
    {
        WatchMapCursor {
            literal,
            place: 0,
            current: self.first(literal),
            before: None,
        }
    }

    /// Walks over the clauses that watch a literal. The clause at each step then watches the
    /// literal of that step in place of this one, unless it watches that one already. At a step
    /// with no literal it keeps its watch. The room for all moves is reserved first, so a refused
    /// walk moves nothing.
    pub fn walk(
        &mut self,
        alloc: Global,
        clauses: &mut [Option<WatchedLiterals>],
        literal: Literal,
        moves: &[Option<Literal>],
    ) -> R<Vec<ClauseId>>
        requires { IsWatched clauses.old (watchers self.old) }
        // After an answer.
        ensures met { IfOk result (λ v. v.items ≡ watchers self.old literal) }
        ensures moved { IfOk result (λ v. clauses.new ≡ pairs_after literal clauses.old v.items
            moves.now) }
        ensures lists { IfOk result
            (λ v.
            (l : Signed)
            → watchers self.new l
            ≡ lists_after literal clauses.old v.items moves.now (watchers self.old) l) }
        // Whatever the answer.
        ensures fit { IsWatched clauses.new (watchers self.new) }
        // After a refusal.
        ensures err { OnErr result (SameLists (watchers self.old) (watchers self.new)) }
        ensures err_clauses { OnErr result (clauses.new ≡ clauses.old) }
        ensures refusal { IsOkUnless result Memory }
    {
        let mut met = Vec::new(alloc);
        met.reserve(self.count(literal))?;
        self.make_room(moves)?;
        self.walk_in_room(&mut met, clauses, literal, moves);
        Ok(met)
    }

    /// The walk where there is room for all moves, and for the clauses that are met.
    fn walk_in_room(
        &mut self,
        met: &mut Vec<ClauseId>,
        clauses: &mut [Option<WatchedLiterals>],
        literal: Literal,
        moves: &[Option<Literal>],
    )
        requires fit { IsWatched clauses.old (watchers self.old) }
        requires none_met { met.old.items ≡ [] }
        requires met_room { length (watchers self.old literal) ≤ vec_capacity met.old }
        requires room { HasRoom self.old moves.now }
        // What the call promises.
        ensures met { met.new.items ≡ watchers self.old literal }
        ensures moved { clauses.new ≡ pairs_after literal clauses.old met.new.items moves.now }
        ensures lists { (l : Signed)
            → watchers self.new l
            ≡ lists_after literal clauses.old met.new.items moves.now (watchers self.old) l }
        ensures fit { IsWatched clauses.new (watchers self.new) }
    {
        let mut cursor = self.cursor(literal);
        let mut rest = moves;
        while let Some(clause) = cursor.clause_id(self) {
            met.push(clause).unwrap();
            let (target, others) = WatchMap::first_of(rest);
            rest = others;
            match cursor.target(self, clauses, target) {
                Some(to) => cursor.update(self, clauses, to).unwrap(),
                None => cursor.next(self),
            }
        }
    }

    /// The first of the literals to move to, and the others.
    fn first_of(moves: &[Option<Literal>]) -> (Option<Literal>, &[Option<Literal>])
        ensures first { result.0 ≡ first_target moves.now }
        ensures rest { result.1.now ≡ drop 1 moves.now }
    {
        match moves.split_first() {
            Some((first, rest)) => (*first, rest),
            None => (None, moves),
        }
    }

    /// Reserves a list for each of these literals.
    fn make_room(&mut self, moves: &[Option<Literal>]) -> R<()>
        ensures same { SameLists (watchers self.old) (watchers self.new) }
        ensures room { OnOk result (HasRoom self.new moves.now) }
        ensures refusal { IsOkUnless result Memory }
    {
        for target in moves {
            if let Some(literal) = target {
                self.reserve(*literal)?;
            }
        }
        Ok(())
    }

    /// Makes the lists of the literals of so many variables, and the links of so many clauses and
    /// some more. So these can begin to watch without a refusal.
    pub fn reserve_clauses(&mut self, variables: usize, clauses: usize, more: usize) -> R<()>
        requires { variables ≤ 2147483648 }
        ensures same { SameLists (watchers self.old) (watchers self.new) }
        ensures room { OnOk result (HasRoomFor variables (clauses + more) self.new) }
        ensures refusal { IsOkUnless result Memory }
    {
        if clauses > MOST_CLAUSES {
            return Err(Want::Memory);
        }
        if more > MOST_CLAUSES - clauses {
            return Err(Want::Memory);
        }
        self.reserve_links((clauses + more) * 2)?;
        self.reserve_lists(variables * 2)
    }

    /// Reserves a list for a literal, to which clauses can then move without a refusal.
    fn reserve(&mut self, literal: Literal) -> R<()>
        ensures same { SameLists (watchers self.old) (watchers self.new) }
        ensures links { SameLinks self.old self.new }
        ensures room { OnOk result (HasPlace self.new literal) }
        ensures others { (l : Signed) → HasPlace self.old l → HasPlace self.new l }
        ensures succeeds { HasPlace self.old literal → IsOk result }
        ensures refusal { IsOkUnless result Memory }
    {
        self.reserve_lists(literal.to_index() + 1)
    }

    /// Makes so many lists. Those that are added are empty.
    fn reserve_lists(&mut self, count: usize) -> R<()>
        ensures same { SameLists (watchers self.old) (watchers self.new) }
        ensures links { SameLinks self.old self.new }
        ensures there { OnOk result (count ≤ length self.new.firsts.items) }
        ensures longer { length self.old.firsts.items ≤ length self.new.firsts.items }
        ensures succeeds { count ≤ length self.old.firsts.items → IsOk result }
        ensures refusal { IsOkUnless result Memory }
    {
        while self.firsts.len() < count {
            self.firsts.push(0)?;
        }
        Ok(())
    }

    /// How many clauses watch a literal.
    fn count(&self, literal: Literal) -> usize
        ensures { result ≡ length (watchers self.now literal) }
    {
        let mut cursor = self.cursor(literal);
        while let Some(_) = cursor.current {
            cursor.next(self);
        }
        cursor.place
    }

    /// The first link of a literal's list, if it has one.
    fn first(&self, literal: Literal) -> Option<u32>
        ensures { result ≡ slice_get (links self.now literal) 0 }
    {
        let index = literal.to_index();
        if index < self.firsts.len() {
            link_at(self.firsts[index])
        } else {
            None
        }
    }

    /// Makes a clause's two links, which are in no list. A map has links for fewer than 2^31 - 1
    /// clauses. It refuses one more as it does for want of memory, and one that watches already.
    fn add_links(&mut self, clause: ClauseId) -> R<()>
        ensures same { SameLists (watchers self.old) (watchers self.new) }
        ensures first { OnOk result (IsFreeLink self.new (clause.0 * 2)) }
        ensures second { OnOk result (IsFreeLink self.new (clause.0 * 2 + 1)) }
        ensures room { (l : Signed) → HasPlace self.old l → HasPlace self.new l }
        ensures refusal { IsOkUnless result Memory }
    {
        let link = clause.to_index() * 2;
        if link > 4_294_967_292 {
            return Err(Want::Memory);
        }
        self.reserve_links(link + 2)?;
        if self.is_unlinked(link) && self.is_unlinked(link + 1) {
            return Ok(());
        }
        Err(Want::Memory)
    }

    /// Makes so many links, and some more. Those that are added are in no list.
    fn reserve_links(&mut self, count: usize) -> R<()>
        requires { count ≤ 4294967294 }
        ensures same { SameLists (watchers self.old) (watchers self.new) }
        ensures there { OnOk result (count ≤ length self.new.nexts.items) }
        ensures room { (l : Signed) → HasPlace self.old l → HasPlace self.new l }
        ensures refusal { IsOkUnless result Memory }
    {
        if self.nexts.len() < count {
            let wanted = (count + MORE_LINKS).min(MOST_LINKS);
            self.nexts.resize(wanted, UNLINKED)?;
        }
        Ok(())
    }

    /// Whether a link was in no list yet.
    fn is_unlinked(&self, link: usize) -> bool
        requires { link < length self.now.nexts.items }
        ensures { result ≡ true → IsFreeLink self.now link }
    {
        self.nexts[link] == UNLINKED
    }

    /// Puts a link that is in no list at the front of a literal's list.
    fn link_first(&mut self, literal: Literal, link: u32)
        requires room { HasPlace self.old literal }
        requires free { IsFreeLink self.old link }
        ensures put { PutsFirst (clause_of link) literal (watchers self.old) (watchers self.new) }
        ensures others { (l : Signed)
            → same_literal literal l ≡ false
            → links self.new l ≡ links self.old l }
        ensures later { (n : ℕ) → link < n → IsFreeLink self.old n → IsFreeLink self.new n }
        ensures room { (l : Signed) → HasPlace self.old l → HasPlace self.new l }
        ensures same_room { KeepsRoom self.old self.new }
    {
        let index = literal.to_index();
        self.nexts[link as usize] = self.firsts[index];
        self.firsts[index] = link + 1;
    }

    /// Takes the link at a cursor out of its list, and returns the next one.
    fn take_out(&mut self, cursor: &WatchMapCursor) -> Option<u32>
        requires at { IsAt self.old cursor.now }
        requires in_list { cursor.now.place < length (watchers self.old cursor.now.literal) }
        ensures taken { TakesOut cursor.now.literal cursor.now.place (watchers self.old)
            (watchers self.new) }
        ensures at { IsPlaced (links self.new cursor.now.literal) cursor.now.place result
            cursor.now.before }
        ensures free { (n : ℕ) → cursor.now.current ≡ Some n → IsFreeLink self.new n }
        ensures room { (l : Signed) → HasPlace self.old l → HasPlace self.new l }
    {
        match cursor.current {
            Some(link) => {
                let next = self.nexts[link as usize];
                let following = link_at(next);
                match cursor.before {
                    Some(before) => self.nexts[before as usize] = next,
                    None => self.firsts[cursor.literal.to_index()] = next,
                }
                following
            }
            None => unreachable!(),
        }
    }
}

impl WatchMapCursor {
    ghost use Rattle.std.specs.Prelude.{◌≡◌, ◌<◌, ◌+◌, Option, length, slice_get, false, Some, OnOk, OnErr, IfOk, IfSome, IsOk, IsOkUnless};
    ghost use Rattle.resolvo_pool_core.specs.declared.want.Want.TheVariants.{Memory};
    ghost use Rattle.resolvo_pool_core.specs.declared.id.ClauseId.{ClauseId};
    ghost use Rattle.resolvo_store_core.specs.Signed.{Signed, same_literal};
    ghost use Rattle.resolvo_store_core.specs.Pairs.{watches, side_of};
    ghost use Rattle.resolvo_store_core.specs.Watches.{HasPlace, watchers, pair_at, IsAt, IsWatched, Moves, MovesIn, SameLists};
    ghost use Rattle.resolvo_store_core.specs.Walk.{new_watch};

    /// The clause at the cursor, or none at the end of the list.
    pub fn clause_id(&self, map: &WatchMap) -> Option<ClauseId>
        requires { IsAt map.now self.now }
        ensures clause { result ≡ slice_get (watchers map.now self.now.literal) self.now.place }
        ensures small { IfSome result (λ _. self.now.place < usize.MAX) }
    {
        match self.current {
            Some(link) => Some(clause_at(link)),
            None => None,
        }
    }

    /// Advances past the clause, which keeps its watch.
    pub fn next(&mut self, map: &WatchMap)
        requires at { IsAt map.now self.old }
        requires in_list { self.old.place < length (watchers map.now self.old.literal) }
        ensures literal { self.new.literal ≡ self.old.literal }
        ensures place { self.new.place ≡ self.old.place + 1 }
        ensures at { IsAt map.now self.new }
    {
        match self.current {
            Some(link) => {
                self.place += 1;
                self.before = Some(link);
                self.current = link_at(map.nexts[link as usize]);
            }
            None => unreachable!(),
        }
    }

    /// The watched literals of the clause at the cursor.
    pub fn watched_literals(
        &self,
        map: &WatchMap,
        clauses: &[Option<WatchedLiterals>],
    ) -> WatchedLiterals
        requires fit { IsWatched clauses.now (watchers map.now) }
        requires at { IsAt map.now self.now }
        requires in_list { self.now.place < length (watchers map.now self.now.literal) }
        ensures { (c : ClauseId)
            → slice_get (watchers map.now self.now.literal) self.now.place ≡ Some c
            → pair_at clauses.now c.0 ≡ Some result }
    {
        match self.clause_id(map) {
            Some(clause) => WatchMapCursor::pair_of(clauses, clause).unwrap(),
            None => unreachable!(),
        }
    }

    /// The literal to watch, unless the clause at the cursor watches it already.
    fn target(
        &self,
        map: &WatchMap,
        clauses: &[Option<WatchedLiterals>],
        to: Option<Literal>,
    ) -> Option<Literal>
        requires fit { IsWatched clauses.now (watchers map.now) }
        requires at { IsAt map.now self.now }
        requires in_list { self.now.place < length (watchers map.now self.now.literal) }
        ensures { (c : ClauseId)
            → slice_get (watchers map.now self.now.literal) self.now.place ≡ Some c
            → result ≡ new_watch (pair_at clauses.now c.0) to }
    {
        let watched = self.watched_literals(map, clauses);
        match to {
            Some(to) => { if watched.watches(to) { None } else { Some(to) } }
            None => None,
        }
    }

    /// Which of a clause's two watches the cursor's literal is.
    pub fn watch_index(&self, watched: WatchedLiterals) -> Watch
        ensures { result ≡ side_of watched self.now.literal }
    {
        watched.watch_of(self.literal)
    }

    /// Lets the clause at the cursor watch another literal in place of this one. The cursor is then
    /// at the clause after it. A refusal leaves the clause where it was.
    pub fn update(
        &mut self,
        map: &mut WatchMap,
        clauses: &mut [Option<WatchedLiterals>],
        to: Literal,
    ) -> R<()>
        requires fit { IsWatched clauses.old (watchers map.old) }
        requires at { IsAt map.old self.old }
        requires in_list { self.old.place < length (watchers map.old self.old.literal) }
        requires free { (c : ClauseId)
            → slice_get (watchers map.old self.old.literal) self.old.place ≡ Some c
            → watches (pair_at clauses.old c.0) to ≡ false }
        // What the call promises.
        ensures moved { OnOk result
            (Moves self.old.literal self.old.place to clauses.old clauses.new (watchers map.old)
            (watchers map.new)) }
        ensures literal { self.new.literal ≡ self.old.literal }
        ensures place { self.new.place ≡ self.old.place }
        ensures at { IsAt map.new self.new }
        ensures err { OnErr result (SameLists (watchers map.old) (watchers map.new)) }
        ensures room { (l : Signed) → HasPlace map.old l → HasPlace map.new l }
        ensures err_clauses { OnErr result (clauses.new ≡ clauses.old) }
        ensures succeeds { HasPlace map.old to → IsOk result }
        // After a refusal.
        ensures refusal { IsOkUnless result Memory }
    {
        let watched = self.watched_literals(map, clauses);
        let clause = self.relink(map, to)?;
        clauses[clause.to_index()] = Some(watched.moved(self.literal, to));
        Ok(())
    }

    /// The same, where these are the clause at the cursor and its watched literals.
    #[inline(always)]
    pub fn update_pair(
        &mut self,
        map: &mut WatchMap,
        clauses: &mut [WatchedPair],
        clause: ClauseId,
        watched: WatchedLiterals,
        to: Literal,
    ) -> R<()>
        requires fit { IsWatched clauses.old (watchers map.old) }
        requires at { IsAt map.old self.old }
        requires present { slice_get (watchers map.old self.old.literal) self.old.place
            ≡ Some clause }
        requires pair { pair_at clauses.old clause.0 ≡ Some watched }
        requires free { watches (Some watched) to ≡ false }
        // What the call promises.
        ensures moved { OnOk result
            (Moves self.old.literal self.old.place to clauses.old clauses.new (watchers map.old)
            (watchers map.new)) }
        ensures literal { self.new.literal ≡ self.old.literal }
        ensures place { self.new.place ≡ self.old.place }
        ensures at { IsAt map.new self.new }
        // After a refusal.
        ensures err { OnErr result (SameLists (watchers map.old) (watchers map.new)) }
        ensures err_clauses { OnErr result (clauses.new ≡ clauses.old) }
        ensures refusal { IsOkUnless result Memory }
    {
        self.relink(map, to)?;
        clauses[clause.to_index()] = WatchedPair::of(Some(watched.moved(self.literal, to)));
        Ok(())
    }

    /// Puts the clause at the cursor at the front of another literal's list, in place of this one's.
    fn relink(&mut self, map: &mut WatchMap, to: Literal) -> R<ClauseId>
        requires at { IsAt map.old self.old }
        requires in_list { self.old.place < length (watchers map.old self.old.literal) }
        requires apart { same_literal self.old.literal to ≡ false }
        // What the call promises.
        ensures moved { IfOk result
            (λ c. MovesIn c self.old.literal self.old.place to (watchers map.old)
            (watchers map.new)) }
        ensures literal { self.new.literal ≡ self.old.literal }
        ensures place { self.new.place ≡ self.old.place }
        ensures at { IsAt map.new self.new }
        ensures err { OnErr result (SameLists (watchers map.old) (watchers map.new)) }
        ensures room { (l : Signed) → HasPlace map.old l → HasPlace map.new l }
        ensures succeeds { HasPlace map.old to → IsOk result }
        // After a refusal.
        ensures refusal { IsOkUnless result Memory }
    {
        map.reserve(to)?;
        match self.current {
            Some(link) => {
                self.current = map.take_out(self);
                map.link_first(to, link);
                Ok(clause_at(link))
            }
            None => unreachable!(),
        }
    }

    /// The watched literals of a clause, if it has any.
    fn pair_of(clauses: &[Option<WatchedLiterals>], clause: ClauseId) -> Option<WatchedLiterals>
        ensures { result ≡ pair_at clauses.now clause.0 }
    {
        let index = clause.to_index();
        if index < clauses.len() {
            clauses[index]
        } else {
            None
        }
    }
}

/// The clause of a link.
fn clause_at(link: u32) -> ClauseId
    ensures { result ≡ clause_of link }
{
    ClauseId(link / 2)
}

/// The link of a number, or none at 0.
fn link_at(number: u32) -> Option<u32>
    ensures { result ≡ link_of number }
{
    if number == 0 { None } else { Some(number - 1) }
}
