//! The program superclasses of each class.

ghost use Rattle.std.specs.Prelude.{◌≡◌, ◌<◌, ◌≤◌, ◌+◌, length, true, false, IfNone, IfSome};
ghost use Rattle.verify.specs.Building.{IsSoundFor};
ghost use Rattle.verify.specs.Chains.{IsChains, SoundBelow, is_sound_at, is_linked, jump_over, above, depth, jump, step, lift, is_in_chain, stepped_both, meets, nearest};
ghost use Rattle.verify.specs.Flow.{greatest};

use std::alloc::Global;

/// For each class by its place the class above it, how many stand above it, and a class further up from which on the
/// chain is looked at again: with these jumps a class high up is reached in a number of steps that grows with the
/// logarithm of its distance.
#[derive(Drop)]
pub struct Chains {
    pub(crate) supers: Vec<Option<u32>>,
    pub(crate) depths: Vec<u32>,
    pub(crate) jumps: Vec<u32>,
    pub(crate) done: Vec<bool>,
}

impl Chains {
    /// Chains in which each class stands alone.
    pub fn alone(alloc: Global) -> Chains
        ensures sound { IsChains result }
        ensures none { length result.supers.items ≡ 0 }
    {
        Chains {
            supers: Vec::new(alloc),
            depths: Vec::new(alloc),
            jumps: Vec::new(alloc),
            done: Vec::new(alloc),
        }
    }

    /// The chains as they are, if they are sound.
    pub(crate) fn checked(self, alloc: Global, classes: u32) -> Chains
        ensures sound { IsChains result }
        ensures short { length self.supers.items ≤ greatest → length result.supers.items ≤ greatest }
        ensures kept { IsSoundFor classes self → result ≡ self }
    {
        if self.is_sound(classes) {
            self
        } else {
            Chains::alone(alloc)
        }
    }

    /// Whether the chains of so many classes are sound.
    fn is_sound(&self, classes: u32) -> bool
        ensures sound { result ≡ true → IsChains self.now }
        ensures kept { IsSoundFor classes self.now → result ≡ true }
    {
        let count = classes as usize;
        if self.supers.len() != count || self.depths.len() != count || self.jumps.len() != count {
            return false;
        }
        match self.first_unsound(classes) {
            Some(_) => false,
            None => true,
        }
    }

    /// The first of so many classes that isn't sound.
    fn first_unsound(&self, classes: u32) -> Option<u32>
        ensures none { IfNone result (SoundBelow self.now classes) }
        ensures within { IfSome result (λ class. class < classes) }
        ensures some { IfSome result (λ class. is_sound_at self.now class ≡ false) }
    {
        for class in 0..classes {
            if !self.is_sound_at(class) {
                return Some(class);
            }
        }
        None
    }

    /// Whether a class stands right below what is above it, and no deeper than there are classes.
    fn is_sound_at(&self, class: u32) -> bool
        ensures { result ≡ is_sound_at self.now class }
    {
        self.is_linked(class)
            && self.depth(class) as usize <= self.supers.len()
            && self.depth(class) < 2_147_483_000
    }

    /// Whether a class stands right below what is above it.
    fn is_linked(&self, class: u32) -> bool
        ensures { result ≡ is_linked self.now class (above self.now class) }
    {
        let depth = self.depth(class);
        match self.above(class) {
            Some(above) => {
                depth > 0
                    && depth.saturating_sub(1) == self.depth(above)
                    && self.jump(class) == self.jump_over(above)
            }
            None => depth == 0 && self.jump(class) == class,
        }
    }

    /// The jump of a class directly below this one: where the two jumps from here are equally long, their end.
    pub(crate) fn jump_over(&self, above: u32) -> u32
        ensures { result ≡ jump_over self.now above }
    {
        let first = self.jump(above);
        let second = self.jump(first);
        let near = self.depth(above).saturating_sub(self.depth(first));
        let far = self.depth(first).saturating_sub(self.depth(second));
        if near == far { second } else { above }
    }

    /// The program superclass of a class.
    pub fn above(&self, class: u32) -> Option<u32>
        ensures { result ≡ above self.now class }
    {
        match self.supers.get(class as usize) {
            Some(above) => *above,
            None => None,
        }
    }

    /// How many classes there are.
    pub fn count(&self) -> usize
        ensures { result ≡ length self.now.supers.items }
    {
        self.supers.len()
    }

    /// How many program classes stand above a class.
    pub fn depth(&self, class: u32) -> u32
        ensures { result ≡ depth self.now class }
    {
        match self.depths.get(class as usize) {
            Some(depth) => *depth,
            None => 0,
        }
    }

    fn jump(&self, class: u32) -> u32
        ensures { result ≡ jump self.now class }
    {
        match self.jumps.get(class as usize) {
            Some(jump) => *jump,
            None => class,
        }
    }

    /// One step up, by a jump if that doesn't pass the depth.
    fn step(&self, class: u32, depth: u32) -> u32
        ensures { result ≡ step self.now class depth }
    {
        let far = self.jump(class);
        if self.depth(far) >= depth && self.depth(far) < self.depth(class) {
            return far;
        }
        match self.above(class) {
            Some(above) => above,
            None => class,
        }
    }

    /// The class at this depth of the chain of a class, which stands no higher.
    fn lift(&self, class: u32, depth: u32) -> u32
        ensures { result ≡ lift self.now class depth }
    {
        let mut at = class;
        for _ in 0..self.supers.len() + 1 {
            if self.depth(at) <= depth {
                return at;
            }
            at = self.step(at, depth);
        }
        at
    }

    /// Whether `upper` is `lower` or a program superclass above it.
    pub fn is_in_chain(&self, lower: u32, upper: u32) -> bool
        ensures { result ≡ is_in_chain self.now lower upper }
    {
        self.lift(lower, self.depth(upper)) == upper
    }

    /// The nearest class in the chains of both.
    pub fn nearest(&self, first: u32, second: u32) -> Option<u32>
        ensures { result ≡ nearest self.now first second }
    {
        let depth = self.depth(first).min(self.depth(second));
        self.meet(self.lift(first, depth), self.lift(second, depth))
    }

    /// One step up for two classes of one depth, by jumps where these end at different classes.
    fn step_both(&self, first: u32, second: u32) -> Option<(u32, u32)>
        ensures { result ≡ stepped_both self.now first second }
    {
        if self.depth(first) == 0 {
            return None;
        }
        if self.jump(first) != self.jump(second) {
            return Some((self.jump(first), self.jump(second)));
        }
        match self.above(first) {
            Some(one) => match self.above(second) {
                Some(other) => Some((one, other)),
                None => None,
            },
            None => None,
        }
    }

    /// Where the chains of two classes of one depth meet.
    fn meet(&self, first: u32, second: u32) -> Option<u32>
        ensures { result ≡ meets (length self.now.supers.items + 1) self.now first second }
    {
        let mut one = first;
        let mut other = second;
        for _ in 0..self.supers.len() + 1 {
            if one == other {
                return Some(one);
            }
            match self.step_both(one, other) {
                Some((a, b)) => {
                    one = a;
                    other = b;
                }
                None => return None,
            }
        }
        None
    }
}
