// Reads the nodes of a tree off its tokens, from the last one on.
ghost use Rattle.std.specs.Prelude.{◌≡◌, ℕ, ◌+◌, ◌-◌, ◌<◌, ◌≤◌, ◌^◌, List, [], length, IfOk, Some, None, if◌then◌else◌, Bool, map, All, IsTrue};
ghost use Rattle.tib_lex.specs.Line.{word_at, words_at, Lies};
ghost use Rattle.tib_tree.specs.Machine.{put, nodes_of, start, finish};
ghost use Rattle.tib_tree.specs.Shape.{state_of, PlaceLies, items_back, node_put, put_open_of, put_close_of};
ghost use Rattle.tib_tree.specs.Shaped.{IsShaped, IsLonger, AreOneTree};

use std::alloc::{AllocError, Global};
use tib_lex::{Kind, Token};

/// A node of a tree: its label's token, how many children a head has, how many nodes its tree has,
/// and how many nodes are above it.
#[derive(Clone, Copy, Debug)]
pub struct Place {
    pub token: Token,
    pub kids: Option<u32>,
    pub size: u32,
    pub depth: u32,
}

/// A level that is still to be opened: how many trees were read at it, and how many nodes in all by
/// then.
#[derive(Clone, Copy, Debug)]
pub struct Level {
    pub trees: u32,
    pub nodes: u32,
}

/// What was read so far of a line's trees.
#[derive(Drop)]
pub struct Reader {
    /// The nodes, the last one first.
    pub places: Vec<Place>,
    // How many trees were read at this level.
    pub top: u32,
    // The levels above it that are still to be opened, the nearest last.
    pub above: Vec<Level>,
    // How many children wait for their head.
    pub held: Option<u32>,
    // How many nodes were read before these children.
    pub before: u32,
}

impl Reader {
    /// A reader that has read nothing. Takes no memory.
    pub fn new(alloc: Global) -> Reader
        ensures { (line : List ℕ) → state_of line result ≡ start }
    {
        Reader {
            places: Vec::new(alloc),
            top: 0,
            above: Vec::new(alloc),
            held: None,
            before: 0,
        }
    }

    fn clear(&mut self)
        ensures places { self.new.places.items ≡ [] }
        ensures start { (line : List ℕ) → state_of line self.new ≡ start }
        ensures shaped { IsShaped self.new }
        ensures short { length self.new.above.items ≡ 0 }
    {
        self.places.clear();
        self.top = 0;
        self.above.clear();
        self.held = None;
        self.before = 0;
    }

    fn put_node(&mut self, token: &Token) -> Result<(), AllocError>
        requires trees { self.old.top < 2 ^ 32 - 1 }
        requires nodes { length self.old.places.items < 2 ^ 32 - 1 }
        requires levels { length self.old.above.items < 2 ^ 32 }
        requires shaped { IsShaped self.old }
        ensures places { IfOk result (λ _. (long : ℕ) → Lies long token.now →
            All (PlaceLies long) self.old.places.items →
            All (PlaceLies long) self.new.places.items) }
        ensures put { IfOk result (λ _. (line : List ℕ) →
            state_of line self.new ≡ node_put (word_at line token.now) (state_of line self.old)) }
        ensures shaped { IfOk result (λ _. IsShaped self.new) }
        ensures longer { IfOk result (λ _. IsLonger self.old self.new) }
    {
        let kids = self.held;
        let count = self.places.len() as u32 + 1;
        let place = Place {
            token: *token,
            kids,
            size: count - self.before,
            depth: self.above.len() as u32,
        };
        self.places.push(place)?;
        self.held = None;
        self.top += 1;
        self.before = count;
        Ok(())
    }

    // Reads one more token, if it may come there.
    fn put(&mut self, token: &Token) -> Result<bool, AllocError>
        requires trees { self.old.top < 2 ^ 32 - 1 }
        requires nodes { length self.old.places.items < 2 ^ 32 - 1 }
        requires levels { length self.old.above.items < 2 ^ 32 }
        requires shaped { IsShaped self.old }
        ensures places { IfOk result (λ ok. (long : ℕ) → Lies long token.now →
            All (PlaceLies long) self.old.places.items →
            All (PlaceLies long) self.new.places.items) }
        ensures put { IfOk result (λ ok. (line : List ℕ) →
            put (word_at line token.now) (state_of line self.old)
            ≡ (if ok then Some (state_of line self.new) else None)) }
        ensures shaped { IfOk result (λ ok. IsTrue ok → IsShaped self.new) }
        ensures longer { IfOk result (λ ok. IsLonger self.old self.new) }
    {
        match token.kind {
            Kind::Name | Kind::Quoted => {
                self.put_node(token)?;
                Ok(true)
            }
            Kind::Open => Ok(self.open()),
            Kind::Close => self.close(),
            Kind::Hash | Kind::Arrow => Ok(false),
        }
    }

    fn open(&mut self) -> bool
        requires { IsShaped self.old }
        ensures places { self.new.places.items ≡ self.old.places.items }
        ensures put { (line : List ℕ) → put_open_of (state_of line self.old)
            ≡ (if result then Some (state_of line self.new) else None) }
        ensures shaped { IsTrue result → IsShaped self.new }
        ensures longer { IsLonger self.old self.new }
    {
        if self.held.is_some() {
            return false;
        }
        let Some(level) = self.above.pop() else {
            return false;
        };
        self.held = Some(self.top);
        self.top = level.trees;
        self.before = level.nodes;
        true
    }

    fn close(&mut self) -> Result<bool, AllocError>
        requires { IsShaped self.old }
        ensures places { self.new.places.items ≡ self.old.places.items }
        ensures put { IfOk result (λ ok. (line : List ℕ) →
            put_close_of (state_of line self.old)
            ≡ (if ok then Some (state_of line self.new) else None)) }
        ensures shaped { IfOk result (λ ok. IsTrue ok → IsShaped self.new) }
        ensures longer { IfOk result (λ ok. IsLonger self.old self.new) }
    {
        if self.held.is_some() {
            return Ok(false);
        }
        let level = Level {
            trees: self.top,
            nodes: self.before,
        };
        self.above.push(level)?;
        self.top = 0;
        Ok(true)
    }

    /// Reads these tokens, and returns whether they are one tree; then `places` has its nodes, the
    /// last one first. After false, and after an Err, which comes only if memory is refused, the
    /// reader can be used again. Worst case: O(n) steps for n tokens.
    pub fn read(&mut self, tokens: &[Token]) -> Result<bool, AllocError>
        requires { length tokens.now < 2 ^ 32 - 1 }
        ensures places { IfOk result (λ ok. IsTrue ok → (long : ℕ) → All (Lies long) tokens.now →
            All (PlaceLies long) self.new.places.items) }
        ensures nodes { IfOk result (λ ok. (line : List ℕ) →
            nodes_of (words_at line tokens.now)
            ≡ (if ok then Some (items_back line self.new.places.items) else None)) }
        ensures one { IfOk result (λ ok. IsTrue ok → AreOneTree self.new.places.items) }
    {
        self.clear();
        let mut i = tokens.len();
        while i > 0 {
            i -= 1;
            if !self.put(&tokens[i])? {
                return Ok(false);
            }
        }
        Ok(self.is_one())
    }

    fn is_one(&self) -> bool
        ensures nodes { (line : List ℕ) → finish (Some (state_of line self.now))
            ≡ (if result then Some (items_back line self.now.places.items) else None) }
        ensures one { IsTrue result → IsShaped self.now → AreOneTree self.now.places.items }
    {
        if self.held.is_some() {
            return false;
        }
        if !self.above.is_empty() {
            return false;
        }
        self.top == 1
    }
}
