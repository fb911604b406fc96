//! The boxes of a delegation tree: a box for the zones that one box delegates to one server group.

use crate::pictures::differences::{Differences, ZoneDifference, ZoneDifferences};
use crate::pictures::shown_zones::shown_zones;
use crate::pictures::strip::Strip;
use ddt_check::Accepted;
use ddt_path::{Locator, Name, Prefix, Role, Xeid, longest_match};
use ddt_register::{Register, Site, Zone};
use std::alloc::{AllocError, Global};
use std::collections::{BTreeMap, BTreeSet};

/// The numbers of zones, registered sites and other sites.
#[derive(Clone, Copy, Debug, Default, PartialEq, Eq)]
pub struct Tally {
    pub zones: usize,
    /// Sites that have an ETR.
    pub registered: usize,
    /// Sites that have none.
    pub unregistered: usize,
}

impl Tally {
    fn add_site(&mut self, site: &Site) {
        if site.etrs.as_slice().is_empty() {
            self.unregistered = self.unregistered.saturating_add(1);
        } else {
            self.registered = self.registered.saturating_add(1);
        }
    }

    fn add_zone(&mut self) {
        self.zones = self.zones.saturating_add(1);
    }
}

/// How the zones and sites of a box differ from another register.
#[derive(Clone, Copy, Debug, Default, PartialEq, Eq)]
pub(crate) struct Changes {
    /// The number of its zones that the other register lacks.
    pub missing: usize,
    /// The number of its zones that another group serves there.
    pub moved: usize,
    /// The group that serves the last of those there.
    pub other_group: Option<Name>,
    /// Whether the group has other locators there.
    pub has_other_locators: bool,
    /// The number of sites that differ, of this register or of the other one.
    pub sites: usize,
}

impl Changes {
    fn add_zone(&mut self, difference: ZoneDifference) {
        match difference {
            ZoneDifference::Missing => self.missing = self.missing.saturating_add(1),
            ZoneDifference::Moved(group) => {
                self.moved = self.moved.saturating_add(1);
                self.other_group = Some(group);
            }
            ZoneDifference::Locators => self.has_other_locators = true,
        }
    }
}

/// The zones that one box delegates to one server group.
#[derive(Clone, Copy, Debug)]
pub struct GroupBox {
    pub group: Name,
    pub kind: Role,
    /// The place of the box that delegates to it; None for the first box.
    pub parent: Option<usize>,
    /// The number of delegations from the first box to it; 0 for the first box.
    pub depth: usize,
    /// The first of its zones, in the order of their digits.
    pub first: Prefix,
    /// Its zones, and the sites in them and in no deeper zone.
    pub here: Tally,
    /// The zones that are too deep to have a box, and their sites.
    pub deeper: Tally,
    /// What is delegated or registered in the first zone.
    pub(crate) strip: Strip,
    /// How its zones and the sites in them differ.
    pub(crate) changes: Changes,
}

/// Which zones have boxes, and which differences are counted in them.
#[derive(Drop)]
pub(crate) struct View {
    /// The greatest depth of a box.
    pub most: usize,
    /// The prefixes of the zones that have boxes; None if all have that aren't too deep.
    pub shown: Option<BTreeSet<Prefix>>,
    /// How its zones differ from another register.
    pub differing: ZoneDifferences,
}

impl View {
    fn shows(&self, zone: &Zone) -> bool {
        match &self.shown {
            Some(shown) => shown.contains(&zone.prefix),
            None => true,
        }
    }
}

/// A zone that may cover the next items.
#[derive(Clone, Copy)]
struct OpenZone {
    prefix: Prefix,
    /// The place of its box, or of the box that counts it.
    place: usize,
    /// Whether it is too deep to have a box.
    is_deep: bool,
}

/// A zone or a site.
#[derive(Clone, Copy)]
pub(crate) enum Item<'a> {
    Zone(&'a Zone),
    Site(&'a Site),
    /// The prefix of a site that differs from another register, or is only there.
    OtherSite(&'a Prefix),
}

impl Item<'_> {
    pub(crate) fn prefix(self) -> Prefix {
        match self {
            Item::Zone(zone) => zone.prefix,
            Item::Site(site) => site.prefix,
            Item::OtherSite(prefix) => *prefix,
        }
    }

    /// Whether it is a zone that differs, or the prefix of a site that does.
    pub(crate) fn differs(self, differing: &ZoneDifferences) -> bool {
        match self {
            Item::Zone(zone) => differing.contains_key(&zone.prefix),
            Item::Site(_) => false,
            Item::OtherSite(_) => true,
        }
    }

    /// Its prefix, if it is a zone.
    pub(crate) fn zone(self) -> Option<Prefix> {
        match self {
            Item::Zone(zone) => Some(zone.prefix),
            Item::Site(_) | Item::OtherSite(_) => None,
        }
    }

    /// The sort key. In its order an item comes after all zones that cover it: by prefix, and a zone before a site of
    /// the same prefix.
    fn order(self) -> (Prefix, bool) {
        (self.prefix(), !matches!(self, Item::Zone(_)))
    }
}

/// Builds the boxes of a tree from items in their order.
#[derive(Drop)]
struct TreeBuilder {
    view: View,
    boxes: Vec<GroupBox>,
    /// The place of each box, by that of its parent and by its group.
    places: BTreeMap<(usize, Name), usize>,
    /// The zones that cover the last item, each inside the one before it.
    open: Vec<OpenZone>,
}

impl TreeBuilder {
    /// The builder with the box of the first zone alone.
    fn new(alloc: Global, zone: &Zone, view: View) -> Result<TreeBuilder, AllocError> {
        let mut builder = TreeBuilder {
            view,
            boxes: Vec::new(alloc),
            places: BTreeMap::new(alloc),
            open: Vec::new(alloc),
        };
        builder.push_box(zone, None, 0)?;
        builder.push_open(zone, 0, false)?;
        Ok(builder)
    }

    fn push_box(
        &mut self,
        zone: &Zone,
        parent: Option<usize>,
        depth: usize,
    ) -> Result<(), AllocError> {
        self.boxes.push(GroupBox {
            group: zone.group,
            kind: zone.kind,
            parent,
            depth,
            first: zone.prefix,
            here: Tally::default(),
            deeper: Tally::default(),
            strip: Strip::of(zone.prefix),
            changes: Changes::default(),
        })?;
        Ok(())
    }

    fn push_open(&mut self, zone: &Zone, place: usize, is_deep: bool) -> Result<(), AllocError> {
        if let Some(counting) = self.boxes.get_mut(place) {
            if is_deep {
                counting.deeper.add_zone();
            } else {
                counting.here.add_zone();
                if let Some(difference) = self.view.differing.get(&zone.prefix) {
                    counting.changes.add_zone(*difference);
                }
            }
        }
        self.open.push(OpenZone {
            prefix: zone.prefix,
            place,
            is_deep,
        })?;
        Ok(())
    }

    /// The innermost zone that covers a prefix, which doesn't sort before the prefixes of earlier calls.
    fn innermost(&mut self, prefix: Prefix) -> Option<OpenZone> {
        for _ in 0..self.open.len() {
            match self.open.last() {
                Some(open) if open.prefix.covers(prefix) => return Some(*open),
                _ => {
                    let _closed = self.open.pop();
                }
            }
        }
        None
    }

    /// Marks a prefix as delegated or registered in the box of a zone.
    fn mark(&mut self, outer: &OpenZone, inside: Prefix) {
        if let Some(marked) = self.boxes.get_mut(outer.place)
            && !outer.is_deep
            && marked.first == outer.prefix
        {
            marked.strip.mark(inside);
        }
    }

    /// The place of the box of a zone inside another one, which may be new; None if it would be too deep.
    fn place_of(&mut self, outer: &OpenZone, zone: &Zone) -> Result<Option<usize>, AllocError> {
        let Some(parent) = self.boxes.get(outer.place).copied() else {
            return Ok(None);
        };
        if outer.is_deep || parent.depth >= self.view.most || !self.view.shows(zone) {
            return Ok(None);
        }
        let key = (outer.place, zone.group);
        if let Some(place) = self.places.get(&key) {
            return Ok(Some(*place));
        }
        let place = self.boxes.len();
        self.push_box(zone, Some(outer.place), parent.depth.saturating_add(1))?;
        self.places.insert(key, place)?;
        Ok(Some(place))
    }

    fn add_zone(&mut self, outer: &OpenZone, zone: &Zone) -> Result<(), AllocError> {
        self.mark(outer, zone.prefix);
        match self.place_of(outer, zone)? {
            Some(place) => self.push_open(zone, place, false),
            None => self.push_open(zone, outer.place, true),
        }
    }

    fn add_site(&mut self, outer: &OpenZone, site: &Site) {
        self.mark(outer, site.prefix);
        if let Some(counting) = self.boxes.get_mut(outer.place) {
            if outer.is_deep {
                counting.deeper.add_site(site);
            } else {
                counting.here.add_site(site);
            }
        }
    }

    /// Counts a site that differs in the box of a zone.
    fn add_other_site(&mut self, outer: &OpenZone) {
        if let Some(noting) = self.boxes.get_mut(outer.place)
            && !outer.is_deep
        {
            noting.changes.sites = noting.changes.sites.saturating_add(1);
        }
    }

    fn add(&mut self, item: Item<'_>) -> Result<(), AllocError> {
        let Some(outer) = self.innermost(item.prefix()) else {
            return Ok(());
        };
        match item {
            Item::Zone(zone) => self.add_zone(&outer, zone),
            Item::Site(site) => {
                self.add_site(&outer, site);
                Ok(())
            }
            Item::OtherSite(_) => {
                self.add_other_site(&outer);
                Ok(())
            }
        }
    }
}

/// The zones strictly below a zone and the sites in it that a prefix covers, and sites that differ, sorted.
fn items_in<'a>(
    alloc: Global,
    register: &'a Register,
    first: &Zone,
    under: Prefix,
    others: &'a [Prefix],
) -> Result<Vec<Item<'a>>, AllocError> {
    let mut items = Vec::new(alloc);
    push_zones(&mut items, register, first, under)?;
    push_sites(&mut items, register, under)?;
    push_others(&mut items, others)?;
    items.sort_by_key(|item| item.order())?;
    Ok(items)
}

fn push_zones<'a>(
    items: &mut Vec<Item<'a>>,
    register: &'a Register,
    first: &Zone,
    under: Prefix,
) -> Result<(), AllocError> {
    for zone in register.zones.as_slice() {
        if under.covers(zone.prefix) && zone.prefix.is_strictly_below(first.prefix) {
            items.push(Item::Zone(zone))?;
        }
    }
    Ok(())
}

fn push_sites<'a>(
    items: &mut Vec<Item<'a>>,
    register: &'a Register,
    under: Prefix,
) -> Result<(), AllocError> {
    for site in register.sites.as_slice() {
        if under.covers(site.prefix) {
            items.push(Item::Site(site))?;
        }
    }
    Ok(())
}

fn push_others<'a>(items: &mut Vec<Item<'a>>, others: &'a [Prefix]) -> Result<(), AllocError> {
    for site in others {
        items.push(Item::OtherSite(site))?;
    }
    Ok(())
}

/// The boxes of the part of the delegation tree under a prefix. The first is that of the longest zone that covers the
/// prefix. Zones that one box delegates to the same group are in one box. Zones more than `most` boxes below the first
/// are counted in the box above. Fails only if out of memory.
pub fn boxes_under(
    alloc: Global,
    accepted: &Accepted,
    under: Prefix,
    most: usize,
) -> Result<Vec<GroupBox>, AllocError> {
    let view = View {
        most,
        shown: None,
        differing: ZoneDifferences::new(alloc),
    };
    let register = accepted.register();
    let Some(first) = longest_match(register.zones.as_slice(), under) else {
        return Ok(Vec::new(alloc));
    };
    let items = items_in(alloc, register, first, under, &[])?;
    boxes_of(alloc, first, &items, view)
}

/// The boxes of a zone and of the items below it.
fn boxes_of(
    alloc: Global,
    first: &Zone,
    items: &[Item<'_>],
    view: View,
) -> Result<Vec<GroupBox>, AllocError> {
    let mut builder = TreeBuilder::new(alloc, first, view)?;
    for item in items {
        builder.add(*item)?;
    }
    Ok(builder.boxes)
}

/// The boxes of a whole tree, with the differences counted in them. If the register has more than `most_zones` zones,
/// only those have boxes that differ or have sites that differ, and those above them, until there are `most_zones`; the
/// others are counted in the boxes above. Fails only if out of memory.
pub(crate) fn boxes_with(
    alloc: Global,
    accepted: &Accepted,
    differences: Differences,
    most_zones: usize,
) -> Result<Vec<GroupBox>, AllocError> {
    let register = accepted.register();
    let zones = register.zones.as_slice();
    let Some(first) = longest_match(zones, everything()) else {
        return Ok(Vec::new(alloc));
    };
    let Differences {
        zones: differing,
        sites,
    } = differences;
    let items = items_in(alloc, register, first, everything(), &sites)?;
    let shown = if zones.len() > most_zones {
        Some(shown_zones(alloc, &items, &differing, most_zones)?)
    } else {
        None
    };
    let view = View {
        most: usize::MAX,
        shown,
        differing,
    };
    boxes_of(alloc, first, &items, view)
}

/// The prefix of everything.
fn everything() -> Prefix {
    let any = Xeid {
        iid: 0,
        address: Locator::V4(0),
    };
    Prefix::cut(any, 0)
}
