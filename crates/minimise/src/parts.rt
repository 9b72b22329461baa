//! Which class to split by next, and which number a new part of a class gets (J. Hopcroft, 1971: of two parts the smaller waits). A call
//! takes time linear in the moves that it is given. No contract rests on what it answers.

use std::alloc::{AllocError, Global};

/// The sizes of classes, where the sources of the moves at hand go, and which classes wait to be splitters.
#[derive(Drop)]
pub struct Parts {
    /// For each class the number of its states.
    sizes: Vec<usize>,
    /// For each class the number of its states that are sources of the moves at hand.
    sources: Vec<usize>,
    /// For each class where its sources go: to a new class where others stay, and else to the class itself.
    targets: Vec<usize>,
    /// For each class whether it waits.
    waits: Vec<bool>,
    /// The classes that wait.
    waiting: Vec<usize>,
    /// The classes that have sources.
    met: Vec<usize>,
    /// Numbers that no class has.
    free: Vec<usize>,
}

impl Parts {
    /// Of the parts of each coarser class but 0 all wait but the largest one, and all but class 0 of those of class 0. Numbers are at
    /// most the number of states.
    pub fn new(alloc: Global, classes: &[usize], coarser: &[usize]) -> Result<Parts, AllocError> {
        let mut parts = Parts::without_room(alloc);
        parts.make_room(alloc, classes)?;
        parts.begin_all(alloc, coarser)?;
        Ok(parts)
    }

    /// No class. It takes no memory.
    fn without_room(alloc: Global) -> Parts {
        Parts {
            sizes: Vec::new(alloc),
            sources: Vec::new(alloc),
            targets: Vec::new(alloc),
            waits: Vec::new(alloc),
            waiting: Vec::new(alloc),
            met: Vec::new(alloc),
            free: Vec::new(alloc),
        }
    }

    /// Makes room for the classes, of which none waits and none has sources.
    fn make_room(&mut self, alloc: Global, classes: &[usize]) -> Result<(), AllocError> {
        let count = classes.len().saturating_add(1);
        self.sizes = sizes(alloc, classes, count)?;
        self.sources = vec![in alloc; 0usize; count]?;
        self.targets = numbers_below(alloc, count)?;
        self.waits = vec![in alloc; false; count]?;
        Ok(())
    }

    /// Makes those of the classes wait that are to, where none does.
    fn begin_all(&mut self, alloc: Global, coarser: &[usize]) -> Result<(), AllocError> {
        let largest = self.largest_parts(alloc, coarser)?;
        'classes: for class in 1..self.sizes.len() {
            let whole = number_at(coarser, class.wrapping_sub(1));
            if whole == 0 || number_at(&largest, whole) != class {
                self.begin(class)?;
            }
        }
        Ok(())
    }

    /// For each coarser class the first of its largest parts.
    fn largest_parts(&self, alloc: Global, coarser: &[usize]) -> Result<Vec<usize>, AllocError> {
        let mut largest = vec![in alloc; 0usize; self.sizes.len()]?;
        'classes: for class in 1..self.sizes.len() {
            let whole = number_at(coarser, class.wrapping_sub(1));
            self.put_largest(&mut largest, whole, class);
        }
        Ok(largest)
    }

    /// Notes the class, a part of the coarser one, where it is the largest so far.
    fn put_largest(&self, largest: &mut Vec<usize>, whole: usize, class: usize) {
        let size = number_at(&self.sizes, class);
        let known = number_at(largest, whole);
        if size != 0 && (known == 0 || size > number_at(&self.sizes, known)) {
            put(largest, whole, class);
        }
    }

    /// The class waits where it has a state, and else its number is free.
    fn begin(&mut self, class: usize) -> Result<(), AllocError> {
        if number_at(&self.sizes, class) == 0 {
            self.free.push(class)?;
            return Ok(());
        }
        self.wait(class)
    }

    /// Makes the class wait, unless it waits already.
    fn wait(&mut self, class: usize) -> Result<(), AllocError> {
        if let Some(waits) = self.waits.get_mut(class) {
            if !*waits {
                *waits = true;
                self.waiting.push(class)?;
            }
        }
        Ok(())
    }

    /// Whether the class waits.
    fn is_waiting(&self, class: usize) -> bool {
        match self.waits.get(class) {
            Some(waits) => *waits,
            None => false,
        }
    }

    /// A class that waits, which no longer does.
    pub fn next_splitter(&mut self) -> Option<usize> {
        let class = self.waiting.pop()?;
        if let Some(waits) = self.waits.get_mut(class) {
            *waits = false;
        }
        Some(class)
    }

    /// For each class where its sources go.
    pub fn targets(&self) -> &[usize] {
        &self.targets
    }

    /// Chooses where the sources of the moves go.
    pub fn choose(&mut self, classes: &[usize], moves: &[(u32, usize)]) -> Result<(), AllocError> {
        self.met.clear();
        'moves: for &(_, state) in moves {
            self.meet(number_at(classes, state))?;
        }
        self.choose_targets();
        Ok(())
    }

    /// One more state of the class is a source.
    fn meet(&mut self, class: usize) -> Result<(), AllocError> {
        if let Some(sources) = self.sources.get_mut(class) {
            if *sources == 0 {
                self.met.push(class)?;
            }
            *sources = sources.wrapping_add(1);
        }
        Ok(())
    }

    /// Gives a free number to the sources of each class that has other states. Class 0 always has: numbers that are no state.
    fn choose_targets(&mut self) {
        'met: for class in &self.met {
            let is_split = number_at(&self.sources, *class) < number_at(&self.sizes, *class);
            if *class == 0 || is_split {
                if let Some(target) = self.targets.get_mut(*class) {
                    if let Some(number) = self.free.pop() {
                        *target = number;
                    }
                }
            }
        }
    }

    /// The sources have gone where they were to go.
    pub fn settle(&mut self) -> Result<(), AllocError> {
        'met: for place in 0..self.met.len() {
            let class = number_at(&self.met, place);
            self.settle_class(class)?;
        }
        Ok(())
    }

    /// The sources of the class have gone where they were to go.
    fn settle_class(&mut self, class: usize) -> Result<(), AllocError> {
        let moved = number_at(&self.sources, class);
        let part = number_at(&self.targets, class);
        put(&mut self.sources, class, 0);
        put(&mut self.targets, class, class);
        if part == class {
            return Ok(());
        }
        let rest = number_at(&self.sizes, class).wrapping_sub(moved);
        put(&mut self.sizes, class, rest);
        put(&mut self.sizes, part, moved);
        if class == 0 || moved <= rest || self.is_waiting(class) {
            return self.wait(part);
        }
        self.wait(class)
    }
}

/// The number at the place, 0 past the end.
fn number_at(numbers: &[usize], place: usize) -> usize {
    match numbers.get(place) {
        Some(number) => *number,
        None => 0,
    }
}

/// Puts the number at the place, if it is there.
fn put(numbers: &mut Vec<usize>, place: usize, number: usize) {
    if let Some(there) = numbers.get_mut(place) {
        *there = number;
    }
}

/// The numbers below the count, each at its place.
fn numbers_below(alloc: Global, count: usize) -> Result<Vec<usize>, AllocError> {
    let mut numbers = Vec::with_capacity(alloc, count)?;
    'numbers: for number in 0..count {
        numbers.push(number)?;
    }
    Ok(numbers)
}

/// How many states each class has.
fn sizes(alloc: Global, classes: &[usize], count: usize) -> Result<Vec<usize>, AllocError> {
    let mut sizes = vec![in alloc; 0usize; count]?;
    'states: for class in classes {
        if let Some(size) = sizes.get_mut(*class) {
            *size = size.wrapping_add(1);
        }
    }
    Ok(sizes)
}
