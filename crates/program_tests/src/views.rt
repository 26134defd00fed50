// What readers of a shelf are answered: beside a writer, behind notes that are listed, behind a run, and
// beside one.
mod behind;
mod beside;
mod shelves;
mod watches;
