//! The laws of composing texts, and of their products. Each function does nothing: its contract is
//! the law.

ghost use Rattle.std.specs.Prelude.{ℕ, List};
ghost use Rattle.si_readings.specs.Laws.{AtMostOne, HasResult};
ghost use Rattle.si_systems.specs.Compose as stage;
ghost use Rattle.si_systems.specs.Laws.{NamesAreOne, NamesAreStateNames, OutputsServe};
ghost use Rattle.si_systems.specs.Product.{product};
ghost use Rattle.si_systems.specs.ProductLaws.{ProductsServe};

/// Texts come to one answer, and to one alone.
pub fn composed_texts_are_one()
    ensures some { (files texts : List (List ℕ)) → HasResult (stage.compose files texts) }
    ensures one { (files texts : List (List ℕ)) → AtMostOne (stage.compose files texts) }
{}

/// No two tuples of states have one name, and each name is a state name.
pub fn tuple_names_are_one()
    ensures one { NamesAreOne }
    ensures names { NamesAreStateNames }
{}

/// An output reads back as the composed graph, and netlists that implement the graphs of the texts
/// implement it together.
pub fn composed_texts_serve()
    ensures { OutputsServe }
{}

/// Texts come to one answer by `product`, and to one alone.
pub fn product_texts_are_one()
    ensures some { (files texts : List (List ℕ)) → HasResult (product files texts) }
    ensures one { (files texts : List (List ℕ)) → AtMostOne (product files texts) }
{}

/// An output of `product` reads back as the product of the graphs that the texts give, and its
/// walks are the words that leave each graph a word which it walks.
pub fn product_texts_serve()
    ensures { ProductsServe }
{}
